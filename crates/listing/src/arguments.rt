// Sets of literals, written as the numbers of arguments.
ghost use Rattle.std.specs.Prelude.{◌+◌, ◌^◌, ◌≤◌, length};
ghost use Rattle.lists.specs.Inside.Stores.{Written};
ghost use Rattle.literals.specs.Inside.Words.{set_of};
ghost use Rattle.listing.specs.Inside.Listing.{members_from};

use literals::LiteralSet;

// Writes base + h for each member h, ascending, and returns the next place.
pub fn write_set(arguments: &mut [u32], at: usize, base: u64, set: LiteralSet) -> usize
    requires set_in_bounds { at + length (members_from base 128 (set_of set)) ≤ length arguments.old }
    requires base_bound { base + 128 ≤ 2 ^ 32 }
    ensures { Written arguments.old arguments.new at result (members_from base 128 (set_of set)) }
{
    let mut next = at;
    for literal in set {
        arguments[next] = (base + literal) as u32;
        next += 1;
    }
    next
}
