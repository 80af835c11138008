// Whether one argument attacks another, and its kind as a defeater, by the table of rows and the exclusion table.
ghost use Rattle.std.specs.Prelude.{◌≡◌, ℕ, ◌^◌, ◌<◌, ◌≤◌};
ghost use mathlib.Core.List.{List, Memᴰ};
ghost use Rattle.literals.specs.Inside.Words.{set_of};
ghost use Rattle.program.specs.Program.{Program};
ghost use Rattle.program.specs.Limits.{Limits, Mask};
ghost use Rattle.program.specs.Inside.Table.{Holds};
ghost use Rattle.argument.specs.Argument.{mask_of};
ghost use Rattle.closures.specs.Inside.Table.{Laid};
ghost use Rattle.argument.specs.List.{argument_list};
ghost use Rattle.defeat.specs.Tests.{kind as «kind_by»};
ghost use Rattle.defeat.specs.OfProgram.{tests_of};
ghost use Rattle.preference.specs.Preference.{preferred_test};
ghost use Rattle.defeat.specs.Inside.Exclusions.{Numbers, Ready};
ghost use Rattle.defeat.specs.Inside.Kinds.{number_of_kind};
ghost use Rattle.defeat.specs.Inside.Steps.{SomeDerived, AttacksBy, attacked_by, kind_among};

use crate::kinds::Kind;
use argument::numbers;
use literals::{LiteralSet, masks};
use program::RuleTable;

// The literal of x excludes one that the mask of y derives. Where it does not, no sub-argument of y is attacked.
pub fn attacks(rows: &[u64], exclusions: &[u64; 256], x: u32, y: u32) -> bool
    requires { Laid rows.now }
    ensures { AttacksBy exclusions.now rows.now x y result }
{
    let excluded = excluded::entry(exclusions, numbers::literal_of(x));
    let mask = numbers::mask_of(y);
    if some_derived(rows, excluded.lo, 0, mask) {
        return true;
    }
    some_derived(rows, excluded.hi, 64, mask)
}

// The mask derives a literal of a word, the first of which is literal `first`. Tried: a loop over the set, and one over
// `masks::bits`; they take a literal out before the test that ends the search, and a search of many candidates a quarter more.
fn some_derived(rows: &[u64], word: u64, first: u64, mask: u64) -> bool
    requires { (Laid rows.now) × (first ≤ 64) }
    ensures { SomeDerived rows.now word first mask result }
{
    let mut left = word;
    while left != 0 {
        if closures::derives(rows, first + masks::lowest(left), mask) {
            return true;
        }
        left = masks::rest(left);
    }
    false
}

// The kind of x as a defeater of y, or None. An argument with an empty mask attacks nothing. It walks the list, so ask
// `attacks` first.
pub fn kind(
    table: &RuleTable,
    exclusions: &[u64; 256],
    arguments: &[u32],
    x: u32,
    y: u32,
) -> Option<Kind>
    requires numbers { Numbers arguments.now }
    requires x_bound { (x < 2 ^ 23) × (y < 2 ^ 23) }
    ensures { (p : Program) (u : ℕ) (rows : List ℕ)
        → Ready p u table.now rows exclusions.now arguments.now
        → Memᴰ x (argument_list p.rules) → Memᴰ y (argument_list p.rules)
        → number_of_kind result ≡ kind_by (tests_of p (preferred_test p)) x y }
{
    if x < 128 {
        return None;
    }
    let row = excluded::entry(exclusions, numbers::literal_of(x));
    weigh(
        table,
        arguments,
        row,
        numbers::mask_of(x),
        numbers::mask_of(y),
    )
}

// The kind of an argument with the mask x as a defeater of one with the mask y, where its literal excludes those of a set.
// The list ascends, so that after the masks up to y no sub-argument follows.
fn weigh(table: &RuleTable, arguments: &[u32], excluded: LiteralSet, x: u64, y: u64) -> Option<Kind>
    requires numbers { Numbers arguments.now }
    requires x_bound { (x < 2 ^ 16) × (y < 2 ^ 16) }
    ensures { (p : Program) → Limits p → Holds p table.now → Mask p x
        → arguments.now ≡ argument_list p.rules
        → number_of_kind result ≡ kind_among (attacked_by (set_of excluded) y) (λ z. preferred_test p x (mask_of z))
        (λ z. preferred_test p (mask_of z) x) (argument_list p.rules) }
{
    let mut found = None;
    for z in arguments {
        let mask = numbers::mask_of(*z);
        if y < mask {
            return found;
        }
        if !attacked(excluded, y, *z) {
            continue;
        }
        if preference::preferred(table, x, mask) {
            return Some(Kind::Proper);
        }
        if !preference::preferred(table, mask, x) {
            found = Some(Kind::Blocking);
        }
    }
    found
}

// z is a sub-argument of one with the mask y, and its literal is in the set.
fn attacked(excluded: LiteralSet, y: u64, z: u32) -> bool
    ensures { result ≡ attacked_by (set_of excluded) y z }
{
    masks::within(numbers::mask_of(z), y) && excluded.has(numbers::literal_of(z))
}
