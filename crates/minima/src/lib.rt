// What is read off the rows, 64 masks at a time: the minimal masks of a row.
#![tactic(auto)]

ghost use Rattle.std.specs.Prelude.{◌≡◌, ℕ, ◌+◌, ◌*◌, ◌^◌, ◌<◌, length, get_or};
ghost use Rattle.literals.specs.Sets.{has as «has_of»};
ghost use Rattle.minima.specs.Minima.{Minima};
ghost use Rattle.minima.specs.Steps.{Lowered, less_below};

use literals::masks;
use rows::PLACES;

// The minimal masks of the row that begins at `at`, among those of its word i: set, and unset where one rule is left out. Most
// words have none, and then the other words need not be looked at.
pub fn minimal(rows: &[u64], at: u64, i: u64) -> u64
    requires { (at + i < length rows.now) × (at + i < 2 ^ 32) }
    ensures { Minima (λ j. get_or rows.now (at + j) 0) i result }
{
    let set = rows[(at + i) as usize];
    let mut x = set;
    for bit in masks::bits(i) {
        let less = rows[(at + masks::clear(i, bit)) as usize];
        x = x - (x & less);
        if x == 0 {
            return 0;
        }
    }
    let less = lowered(set);
    x - (x & less)
}

// The places that are in x without one of their six bits.
fn lowered(x: u64) -> u64
    ensures { (k : ℕ) → k < 64 → has_of result k ≡ less_below x k 6 }
{
    let mut places: u64 = 0;
    for bit in 0..6 {
        places = lower(x, bit) | places;
    }
    places
}

// The places that have a bit and are in x without it.
fn lower(x: u64, bit: u64) -> u64
    requires { bit < 6 }
    ensures { Lowered x bit result }
{
    (x - (x & PLACES[bit as usize])) << (1u64 << bit)
}
