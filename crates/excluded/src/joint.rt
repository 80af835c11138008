// Two literals together derive what each derives, but for joint literals: those that derive a part of a strict rule's body
// and not its head.
ghost use Rattle.std.specs.Prelude.{◌≡◌, true, false, List, ℕ, ◌<◌};
ghost use Rattle.literals.specs.Sets.{has as «has_of»};
ghost use Rattle.literals.specs.Inside.Words.{set_of};
ghost use Rattle.program.specs.Program.{Rule};
ghost use Rattle.program.specs.Inside.Table.{Shaped, rule_count};
ghost use Rattle.excluded.specs.Inside.Exclusions.{Excluded};
ghost use Rattle.excluded.specs.Inside.Strict.{Reduced};
ghost use Rattle.excluded.specs.Inside.Rows.{Each, Reached, RowOf, Gained, Joined, Added};
ghost use Rattle.excluded.specs.Inside.Joint.{Crossed, Coherent, Unspread, Spread, Touches, Pairs};

use crate::{LaidRules, entry, store};
use literals::LiteralSet;
use program::RuleTable;

// The exclusion table, by what each literal derives.
pub fn fill(laid: &LaidRules, u: LiteralSet, reach: &[u64; 256], exclusions: &mut [u64; 256])
    ensures { (r : List Rule) (d : ℕ) → Reduced r d (set_of u) laid.now.rules.now
        → Reached r (set_of u) reach.now → Excluded r (set_of u) exclusions.new }
{
    let clashes = cross(reach, exclusions);
    let joint = unsettled(laid.rules, reach, u, clashes);
    join(laid, u, reach, joint, exclusions);
}

// Each literal gets those that derive a complement of what it derives. Some literal derives both of an atom.
fn cross(reach: &[u64; 256], exclusions: &mut [u64; 256]) -> bool
    ensures crossed { Crossed reach.now 64 exclusions.new }
    ensures coherent { result ≡ false → Coherent reach.now 64 }
{
    rows::clear(exclusions);
    let mut clashes = false;
    for atom in 0..64 {
        let positive = entry(reach, 2 * atom);
        let negative = entry(reach, 2 * atom + 1);
        if positive.is_empty() | negative.is_empty() {
            continue;
        }
        clashes |= positive.meets(negative);
        add(exclusions, positive, negative);
        add(exclusions, negative, positive);
    }
    clashes
}

// The rows of the literals of s get v.
fn add(exclusions: &mut [u64; 256], s: LiteralSet, v: LiteralSet)
    ensures { Added (set_of s) (set_of v) exclusions.old exclusions.new }
{
    for literal in s {
        store(exclusions, literal, entry(exclusions, literal).union(v));
    }
}

// The literals whose row is not settled by what each literal derives alone. Where one derives a contradiction by itself,
// none is.
fn unsettled(rules: &RuleTable, reach: &[u64; 256], u: LiteralSet, clashes: bool) -> LiteralSet
    requires shaped { Shaped rules.now }
    ensures { (a : ℕ) → has_of (set_of u) a ≡ true → has_of (set_of result) a ≡ false
        → (clashes ≡ false) × Unspread rules.now reach.now a }
{
    if clashes {
        return u;
    }
    joint(rules, reach)
}

// The joint literals.
fn joint(rules: &RuleTable, reach: &[u64; 256]) -> LiteralSet
    requires shaped { Shaped rules.now }
    ensures { (a : ℕ) → a < 128 → has_of (set_of result) a ≡ false → Unspread rules.now reach.now a }
{
    let mut found = LiteralSet::empty();
    for i in 0..program::rule_count(rules) {
        found = found.union(spread(rules, reach, i));
    }
    found
}

// The literals that derive a part of rule i's body and not its head.
fn spread(rules: &RuleTable, reach: &[u64; 256], i: u64) -> LiteralSet
    requires shaped { Shaped rules.now }
    requires i_bound { i < rule_count rules.now }
    ensures { (a : ℕ) → a < 128 → has_of (set_of result) a ≡ false → Spread rules.now reach.now i a }
{
    let known = entry(reach, program::head(rules, i));
    touch(reach, program::body(rules, i)).minus(known)
}

// All that derive some literal of a set.
fn touch(reach: &[u64; 256], s: LiteralSet) -> LiteralSet
    ensures { Touches reach.now (set_of s) (set_of result) }
{
    let mut found = LiteralSet::empty();
    for literal in s {
        found = found.union(entry(reach, literal));
    }
    found
}

// The rows of the joint literals, each by what it derives with another.
fn join(
    laid: &LaidRules,
    u: LiteralSet,
    reach: &[u64; 256],
    joint: LiteralSet,
    exclusions: &mut [u64; 256],
)
    ensures { Each (Joined (set_of u) laid.now.rules.now reach.now) (set_of joint) exclusions.old exclusions.new }
{
    for literal in joint {
        store(exclusions, literal, together(laid, u, reach, literal));
    }
}

// The literals of u that exclude a: the rows are filled again, with a under each literal.
fn together(laid: &LaidRules, u: LiteralSet, reach: &[u64; 256], a: u64) -> LiteralSet
    requires { a < 128 }
    ensures { (r : List Rule) (d : ℕ) → Reduced r d (set_of u) laid.now.rules.now → Reached r (set_of u) reach.now
        → has_of (set_of u) a ≡ true → RowOf r (set_of u) a (set_of result) }
{
    let mut rows = *reach;
    store(&mut rows, a, u);
    laid.fill(&mut rows);
    pairs(&rows)
}

// Those that both literals of some atom have.
fn pairs(rows: &[u64; 256]) -> LiteralSet
    ensures { Pairs rows.now 64 (set_of result) }
{
    let mut found = LiteralSet::empty();
    for atom in 0..64 {
        let positive = entry(rows, 2 * atom);
        found = found.union(positive.minus(positive.minus(entry(rows, 2 * atom + 1))));
    }
    found
}
