// The rules of an image, front to back: the directory's entries for cause 3, and each rule's causes 4 to 10. Each rule that is
// read goes into the table, where a later rule that repeats it is found.
ghost use Rattle.std.specs.Prelude.{◌≡◌, true, ℕ, ◌+◌, ◌≤◌, ◌<◌, length, get_or};
ghost use Rattle.lists.specs.Lists.{choose};
ghost use Rattle.literals.specs.Inside.Words.{set_of};
ghost use Rattle.program.specs.Program.{Rule as «ProgramRule»};
ghost use Rattle.program.specs.Inside.Table.{head_at};
ghost use Rattle.program.specs.Inside.Filling.{Stored};
ghost use Rattle.layout.specs.Layout.{atoms_of, rules_of};
ghost use Rattle.layout.specs.Inside.Steps.{Located};
ghost use Rattle.image.specs.Inside.Passes.{Linked, linked_with, SameIs, Repeats, RuleIs, ReadTo, StepRead, RulesRead};

use layout::cursor::{Cursor, Span};
use layout::header::Counts;
use layout::{Cause, Refusal, header};
use part::Rule;
use program::RuleTable;

// Links to earlier rules, by one more than their number, 0 for none: at a literal the last rule with that head, and at
// 128 + a rule's number the one before it with the same head.
pub type Links = [u8; 224];

// Rule j of the table has this rule's kind and body.
fn same(table: &RuleTable, j: u64, rule: Rule) -> bool
    requires { j < 96 }
    ensures { SameIs result table.now j rule.defeasible (head_at table.now j) (set_of rule.body) }
{
    if program::body(table, j) != rule.body {
        return false;
    }
    (program::need(table, j) != 0) == rule.defeasible
}

// One of the first i rules has this rule's kind, head and body. Only those with the same head are looked at.
fn repeated(table: &RuleTable, links: &Links, i: u64, rule: Rule) -> bool
    requires { (Linked table.now links.now i) × (i < 96) × (rule.head < 128) }
    ensures { Repeats result table.now i rule.defeasible rule.head (set_of rule.body) }
{
    let mut after = u64::from(links[rule.head as usize]);
    while 0 < after {
        let j = after - 1;
        if same(table, j, rule) {
            return true;
        }
        after = u64::from(links[(128 + j) as usize]);
    }
    false
}

// Rule i is now the last with its head.
fn link(links: &mut Links, head: u64, i: u64)
    requires { (head < 128) × (i < 96) }
    ensures { links.new ≡ linked_with links.old head i }
{
    let earlier = links[head as usize];
    links[(128 + i) as usize] = earlier;
    links[head as usize] = (i + 1) as u8;
}

// Puts a rule into row i, with the bit if it is defeasible. Hands back the next rule's bit.
fn store(table: &mut RuleTable, i: u64, rule: Rule, bit: u64) -> u64
    requires { (i < 96) × (rule.defeasible ≡ true → bit < 16) × (bit ≤ 16) }
    ensures { (result ≡ choose rule.defeasible (bit + 1) bit) × ((q : ProgramRule) → RuleIs q rule.defeasible rule.head (set_of rule.body) → Stored q i bit table.old table.new) }
{
    if rule.defeasible {
        program::store_row(table, i, rule.head, rule.body, 1u64 << bit);
        program::store_bit(table, bit, i);
        return bit + 1;
    }
    program::store_row(table, i, rule.head, rule.body, 0);
    bit
}

// Reads rule i from its part into the table. Hands back how many rules are defeasible so far, or the first of causes 4 to 10.
fn rule(
    image: &[u8],
    part: Span,
    table: &mut RuleTable,
    links: &mut Links,
    atoms: u64,
    i: usize,
    bits: u64,
) -> Result<u64, Refusal>
    requires { (ReadTo image.now i bits table.old links.old) × (Located image.now i part.from part.to) × (part.to ≤ length image.now) × (i < rules_of image.now) × (rules_of image.now ≤ 96) × (atoms ≡ atoms_of image.now) × (atoms ≤ 64) }
    ensures { StepRead result image.now i bits table.new links.new }
{
    let place = i as u32;
    let rule = part::read(&image[part.from..part.to], atoms, bits, place)?;
    if repeated(table, links, i as u64, rule) {
        return Err(Cause::RepeatedRule.at(place));
    }
    link(links, rule.head, i as u64);
    Ok(store(table, i as u64, rule, bits))
}

// Reads all rules into the table, where the cursor stands at the directory: how many are defeasible, and where the pairs begin, or
// the first of causes 3 to 10. Cause 3 comes before those of the rules, so after a rule that is refused the rest of the directory
// is looked at.
pub fn read(
    image: &[u8],
    table: &mut RuleTable,
    links: &mut Links,
    counts: Counts,
    start: Cursor,
) -> Result<(u64, usize), Refusal>
    requires { ((k : ℕ) → k < 224 → get_or links.old k 0 ≡ 0) × (counts.atoms ≡ atoms_of image.now) × (counts.atoms ≤ 64) × (counts.rules ≡ rules_of image.now) × (counts.rules ≤ 96) × (start.at ≡ 8) }
    ensures { RulesRead result image.now table.new }
{
    let atoms = counts.atoms as u64;
    let rules = counts.rules;
    let mut cursor = start;
    let mut ends = 12 + 4 * rules;
    let mut bits = 0;
    for i in 0..rules {
        let Some((to, next)) = cursor.follow(image, ends) else {
            return Err(Cause::Directory.at(0));
        };
        let part = Span { from: ends, to };
        match rule(image, part, table, links, atoms, i, bits) {
            Ok(more) => bits = more,
            Err(refusal) => {
                if header::directory_sound(image, rules, next, i + 1, to) {
                    return Err(refusal);
                }
                return Err(Cause::Directory.at(0));
            }
        }
        ends = to;
        cursor = next;
    }
    if header::directory_sound(image, rules, cursor, rules, ends) {
        return Ok((bits, ends));
    }
    Err(Cause::Directory.at(0))
}
