// Makes the table of rows of a program: what Π with each mask derives, for all masks at once, and which masks are contradictory.
#![tactic(auto)]

ghost use Rattle.std.specs.Prelude.{◌≡◌, true, ℕ, ◌+◌, ◌%◌, ◌^◌, ◌<◌, ◌≤◌, length, get_or};
ghost use Rattle.std.specs.Int.Bits.{bit_and};
ghost use Rattle.literals.specs.Sets.{has as «has_of», union as «union_of», within as «within_of»};
ghost use Rattle.literals.specs.Inside.Words.{set_of};
ghost use Rattle.program.specs.Program.{Program};
ghost use Rattle.program.specs.Inside.Table.{Shaped, Holds};
ghost use Rattle.rows.specs.Switched.{NeedsOne};
ghost use Rattle.live.specs.Live.{LiveRules};
ghost use Rattle.closures.specs.Inside.Table.{begins_at, keeps_at, word_at, Laid, Tells};
ghost use Rattle.closing.specs.Inside.Plan.{Reach, Pairs, Planned, PlanOf};
ghost use Rattle.closing.specs.Inside.Steps.{Scattered, Blank, Header, ClashWord, ClashRow};

use literals::{LiteralSet, masks};
use program::RuleTable;
use rows::span;

// The rows of the literals that Π derives begin at word 1, the full one.
const FULL: [u64; 128] = [1; 128];

// What Π derives, and what is derived with all rules and not by Π.
#[derive(Clone, Copy)]
pub struct Reached {
    pub derived: LiteralSet,
    pub literals: LiteralSet,
}

// Those two sets, the atoms that may clash, by their even literals, where the literals' rows end and that of the contradictory
// masks begins, and what bears on it. Flat: with `Reached` in it each clause that names a set would be longer.
#[derive(Clone, Copy)]
pub struct Ground {
    pub derived: LiteralSet,
    pub literals: LiteralSet,
    pub pairs: LiteralSet,
    pub end: u64,
    pub span: u64,
}

// Finds the live rules and where the rows of their literals stand. The table takes `end` + `span` + 1 words.
pub fn plan(
    table: &RuleTable,
    live: &mut RuleTable,
    keep: &mut [u64; 128],
    base: &mut [u64; 128],
) -> Ground
    requires { (Shaped table.now) × (NeedsOne table.now) }
    ensures planned { Planned live.new keep.new base.new (set_of result.derived) (set_of result.literals)
        (set_of result.pairs) result.end result.span }
    ensures plan_of { (p : Program) → Holds p table.now → PlanOf p live.new (set_of result.derived) (set_of result.literals) }
{
    let Reached { derived, literals } = reach(table);
    live::live_rules(table, derived, literals, live);
    plans::bearing(live, keep);
    let end = plans::place(keep, literals, 260, base);
    let pairs = pairs_of(derived.union(literals));
    Ground {
        derived,
        literals,
        pairs,
        end,
        span: span_of(keep, pairs),
    }
}

// Fills the table, as it was planned.
pub fn fill(live: &RuleTable, plan: Ground, keep: &[u64; 128], base: &[u64; 128], rows: &mut [u64])
    requires planned { Planned live.now keep.now base.now (set_of plan.derived) (set_of plan.literals) (set_of plan.pairs) plan.end plan.span }
    requires span_in_bounds { (plan.end + plan.span < length rows.old) × (length rows.old < 2 ^ 32) }
    ensures laid { Laid rows.new }
    ensures tells { (p : Program) → PlanOf p live.now (set_of plan.derived) (set_of plan.literals) → Tells p.rules rows.new }
{
    rows::clear(rows);
    rows::fill(live, keep, base, rows);
    lay(plan, keep, base, rows);
    clash_row(plan.pairs, plan.end, plan.span, rows);
}

pub fn reach(table: &RuleTable) -> Reached
    requires { Shaped table.now }
    ensures { (p : Program) → Holds p table.now → Reach p.rules (set_of result.derived) (set_of result.literals) }
{
    let derived = derivation::close(table, 0, LiteralSet::empty());
    let all = derivation::close(table, 0xFFFF_FFFF_FFFF_FFFF, LiteralSet::empty());
    Reached {
        derived,
        literals: all.minus(derived),
    }
}

// The even literals of the atoms with both literals in a set.
fn pairs_of(set: LiteralSet) -> LiteralSet
    ensures { Pairs (set_of set) (set_of result) }
{
    let mut found = LiteralSet::empty();
    for atom in 0..64 {
        let l = 2 * atom;
        if set.has(l) & set.has(l + 1) {
            found = found.insert(l);
        }
    }
    found
}

// What bears on the literals of a set and on those after them.
fn span_of(keep: &[u64; 128], pairs: LiteralSet) -> u64
    requires { ((l : ℕ) → has_of (set_of pairs) l ≡ true → l < 127) × ((l : ℕ) → get_or keep.now l 0 < 1024) }
    ensures { (result < 1024) × ((l : ℕ) → has_of (set_of pairs) l ≡ true
        → (within_of (get_or keep.now l 0) result ≡ true) × (within_of (get_or keep.now (l + 1) 0) result ≡ true)) }
{
    let mut x: u64 = 0;
    for literal in pairs {
        let l = literal as usize;
        x = x | (keep[l] | keep[l + 1]);
    }
    x
}

// What stands before the rows: an empty word and a full one, where each row begins, and what bears on it.
fn lay(plan: Ground, keep: &[u64; 128], base: &[u64; 128], rows: &mut [u64])
    requires { 260 ≤ length rows.old }
    ensures { Header (set_of plan.derived) (set_of plan.literals) plan.end plan.span keep.now base.now
        rows.old rows.new }
{
    blank(rows);
    scatter(rows, 2, plan.literals, base);
    scatter(rows, 131, plan.literals, keep);
    scatter(rows, 2, plan.derived, &FULL);
    rows[130] = plan.end;
    rows[259] = plan.span;
}

// Nothing stands before the rows but a full word.
fn blank(rows: &mut [u64])
    requires { 260 ≤ length rows.old }
    ensures { Blank rows.old rows.new }
{
    rows::clear(&mut rows[..260]);
    rows[1] = 0xFFFF_FFFF_FFFF_FFFF;
}

// Puts the values of the literals of a set at the words from `at` on.
fn scatter(table: &mut [u64], at: u64, set: LiteralSet, values: &[u64; 128])
    requires { (at ≤ 131) × (260 ≤ length table.old) }
    ensures set_bound { set_of set < 2 ^ 128 }
    ensures scattered { Scattered at (set_of set) (λ l. get_or values.now l 0) table.old table.new }
{
    for l in set {
        table[(at + l) as usize] = values[l as usize];
    }
}

// The row of the contradictory masks, for each word that it keeps, in descending order.
fn clash_row(pairs: LiteralSet, end: u64, span: u64, rows: &mut [u64])
    requires laid { (Laid rows.old) × (end + span < length rows.old) × (260 ≤ end) }
    requires by_index { ((l : ℕ) → has_of (set_of pairs) l ≡ true → (l < 127) × (l % 2 ≡ 0)) × ((l : ℕ) → l < 128 → begins_at rows.old l + keeps_at rows.old l < end) }
    ensures { ClashRow (set_of pairs) end span rows.old rows.new }
{
    for w in span::words(span) {
        rows[(end + w) as usize] = clash_word(rows, pairs, w);
    }
}

// The masks from 64 w on that derive a literal of a set and the one after it. The two words have a loop each: one loop over the
// set misses the speed of these where many atoms may clash.
fn clash_word(rows: &[u64], pairs: LiteralSet, w: u64) -> u64
    requires { (Laid rows.now) × ((l : ℕ) → has_of (set_of pairs) l ≡ true → l < 127) }
    ensures { ClashWord rows.now (set_of pairs) w result }
{
    let mut x: u64 = 0;
    for low in masks::bits(pairs.lo) {
        x = x | clash_of(rows, low, w);
    }
    for high in masks::bits(pairs.hi) {
        x = x | clash_of(rows, 64 + high, w);
    }
    x
}

// The masks from 64 w on that derive a literal and the one after it.
fn clash_of(rows: &[u64], l: u64, w: u64) -> u64
    requires { (Laid rows.now) × (l < 127) }
    ensures { result ≡ bit_and (word_at rows.now l w) (word_at rows.now (l + 1) w) }
{
    closures::word(rows, l, w) & closures::word(rows, l + 1, w)
}
