// What clashes in the strict part of an image that is refused with 14: one small clash, marked in a lent byte table.
#![tactic(auto)]

ghost use Rattle.std.specs.Prelude.{◌≡◌, ◌<◌, ◌≤◌, length};
ghost use Rattle.literals.specs.Inside.Words.{set_of};
ghost use Rattle.program.specs.Program.{Program};
ghost use Rattle.program.specs.Inside.Table.{Holds, Shaped};
ghost use Rattle.calls.specs.Outcomes.{outcome_of};
ghost use Rattle.calls.specs.Calls.{front};
ghost use Rattle.derivation.specs.Closure.{contradictory};
ghost use Rattle.clash.specs.Clash.{among, strict_rules, left_out, pruned, marks_from};
ghost use Rattle.clash.specs.Inside.Selected.{selected};
ghost use Rattle.clash.specs.Calls.{clashed_by, clash_table};

use layout::{Cause, Refusal};
use literals::LiteralSet;
use program::RuleTable;

// One small clash of an image's strict rules in the lent table, a byte for each rule, 1 for those of the clash: the rule count,
// or the first of causes 1 to 13, 28 and 29 that applies.
pub fn clash(image: &[u8], marks: &mut [u8]) -> Result<u32, Refusal>
    ensures { (outcome_of result ≡ clashed_by image.now (length marks.old)) × (marks.new ≡ clash_table image.now marks.old) }
{
    let mut table = [0u64; 419];
    image::read(image, &mut table)?;
    let strict = strict_rules(&table);
    if !contradictory_among(&table, strict) {
        return Err(Cause::ImageAccepted.at(0));
    }
    let rules = program::rule_count(&table) as usize;
    if marks.len() < rules {
        return Err(Cause::MarkTable.at(0));
    }
    let small = prune(&table, strict);
    mark(marks, small, rules);
    Ok(rules as u32)
}

// The numbers of the strict rules, facts among them.
fn strict_rules(table: &RuleTable) -> LiteralSet
    requires { Shaped table.now }
    ensures { (p : Program) → Holds p table.now → set_of result ≡ strict_rules p.rules }
{
    let rules = program::rule_count(table);
    let mut s = LiteralSet::empty();
    for i in 0..rules {
        if program::need(table, i) == 0 {
            s = s.insert(i);
        }
    }
    s
}

// What remains of a contradictory set: from the highest number down, each rule is left out without which the rest stays
// contradictory.
fn prune(table: &RuleTable, all: LiteralSet) -> LiteralSet
    requires { Shaped table.now }
    ensures { (p : Program) → Holds p table.now → set_of result ≡ pruned p.rules (length p.rules) (set_of all) }
{
    let rules = program::rule_count(table);
    let mut kept = all;
    for n in (0..rules).rev() {
        kept = leave_out(table, kept, n);
    }
    kept
}

// The turn of rule n.
fn leave_out(table: &RuleTable, kept: LiteralSet, n: u64) -> LiteralSet
    requires shaped { Shaped table.now }
    requires n_bound { n < 96 }
    ensures { (p : Program) → Holds p table.now → set_of result ≡ left_out p.rules n (set_of kept) }
{
    if !kept.has(n) {
        return kept;
    }
    let rest = kept.minus(LiteralSet::empty().insert(n));
    if contradictory_among(table, rest) {
        return rest;
    }
    kept
}

// The rules of the set derive some literal and its complement.
fn contradictory_among(table: &RuleTable, chosen: LiteralSet) -> bool
    requires { Shaped table.now }
    ensures { (p : Program) → Holds p table.now → result ≡ contradictory (among (set_of chosen) p.rules) }
{
    let mut part = [0u64; 419];
    select(table, chosen, &mut part);
    derivation::close(&part, 0, LiteralSet::empty()).contradictory()
}

// The rules of the set in a table of their own, each as a strict one, so that `derivation::close` closes them as it does any
// rules.
fn select(table: &RuleTable, chosen: LiteralSet, part: &mut RuleTable)
    requires { Shaped table.now }
    ensures shaped { Shaped part.new }
    ensures holds { (p : Program) → Holds p table.now → Holds (selected (set_of chosen) p) part.new }
{
    let rules = program::rule_count(table);
    let mut n: u64 = 0;
    for i in 0..rules {
        if chosen.has(i) {
            program::store_row(part, n, program::head(table, i), program::body(table, i), 0);
            n += 1;
        }
    }
    program::store_counts(part, n, 0, program::atom_count(table));
}

// Writes a byte for each rule.
fn mark(marks: &mut [u8], small: LiteralSet, rules: usize)
    requires { (rules ≤ 96) × (rules ≤ length marks.old) }
    ensures { marks.new ≡ front (marks_from (set_of small) 0 rules) marks.old }
{
    for i in 0..rules {
        marks[i] = u8::from(small.has(i as u64));
    }
}
