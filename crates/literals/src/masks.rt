// Masks of defeasible rules: bit b is the rule that got bit b.
ghost use Rattle.std.specs.Prelude.{◌≡◌, ℕ, ◌<◌, ◌≤◌, ◌^◌};
ghost use Rattle.std.specs.Int.Count.{ones};
ghost use Rattle.std.specs.Iterator.{at_most};
ghost use Rattle.literals.specs.Sets.{has as «has_of», insert, minus, within as «within_of», Lowest, Taken};

// The rule with this bit is in the mask.
pub fn has(mask: u64, bit: u64) -> bool
    requires { bit < 64 }
    ensures { result ≡ has_of mask bit }
{
    (mask >> bit) % 2 == 1
}

// The mask without the rule that has this bit.
pub fn clear(mask: u64, bit: u64) -> u64
    requires { bit < 64 }
    ensures { result ≡ minus mask (2 ^ bit) }
{
    mask - (mask & (1u64 << bit))
}

// The mask with the rule that has this bit.
pub fn with_bit(mask: u64, bit: u64) -> u64
    requires { bit < 64 }
    ensures { result ≡ insert mask bit }
{
    mask | (1u64 << bit)
}

// Each rule of the first mask is in the second.
pub fn within(a: u64, b: u64) -> bool
    ensures { result ≡ within_of a b }
{
    a & b == a
}

// How many rules there are in the mask.
pub fn count(mask: u64) -> u64
    ensures { result ≡ ones mask }
{
    u64::count_ones(mask) as u64
}

// The lowest bit of a mask that has one.
pub fn lowest(mask: u64) -> u64
    requires { mask ≡ 0 → ⊥ }
    ensures { Lowest mask result }
{
    u64::trailing_zeros(mask) as u64
}

// The mask without its lowest bit. Cheaper than clearing a bit by its number, and the next turn of a loop does not wait for
// that number.
pub fn rest(mask: u64) -> u64
    requires { mask ≡ 0 → ⊥ }
    ensures { (k : ℕ) → Lowest mask k → result ≡ minus mask (2 ^ k) }
{
    mask & (mask - 1)
}

// The rules of a mask that are still to come.
#[derive(Clone, Copy)]
pub struct Ascending {
    left: u64,
}

// The rules of a mask, ascending.
pub fn bits(mask: u64) -> Ascending
    ensures { result.left ≡ mask }
{
    Ascending { left: mask }
}

impl Iterator for Ascending {
    type Item = u64;

    ghost next_gives = { λ s r t. Taken 64 s.left r t.left };

    ghost remaining = { λ s. at_most s.left };

    fn next(&mut self) -> Option<u64> {
        if self.left == 0 {
            return None;
        }
        let bit = lowest(self.left);
        self.left = rest(self.left);
        Some(bit)
    }
}
