// The rows before they are filled: two words for each literal y, with a bit for each literal x that Π derives y from.
ghost use Rattle.std.specs.Prelude.{◌≡◌, ℕ, ◌*◌, ◌<◌, get_or};
ghost use Rattle.literals.specs.Inside.Words.{set_of};
ghost use Rattle.excluded.specs.Inside.Rows.{Begun, Each, Own, Whole};

use crate::store;
use literals::LiteralSet;

// The place of each row.
pub fn place(base: &mut [u64; 128])
    ensures { (l : ℕ) → l < 128 → get_or base.new l 0 ≡ 2 * l }
{
    for (l, row) in base.iter_mut().enumerate() {
        *row = 2 * (l as u64);
    }
}

// Each literal of u has itself, and what Π derives has all of them.
pub fn start(derived: LiteralSet, u: LiteralSet, rows: &mut [u64; 256])
    ensures { ((n : ℕ) → get_or rows.old n 0 ≡ 0)
        → Begun (set_of derived) (set_of u) rows.new }
{
    own(rows, u);
    whole(rows, derived, u);
}

// Each literal of u has itself.
fn own(rows: &mut [u64; 256], u: LiteralSet)
    ensures { Each Own (set_of u) rows.old rows.new }
{
    for x in u {
        store(rows, x, LiteralSet::empty().insert(x));
    }
}

// Each literal of a set has all those of u.
fn whole(rows: &mut [u64; 256], s: LiteralSet, u: LiteralSet)
    ensures { Each (Whole (set_of u)) (set_of s) rows.old rows.new }
{
    for literal in s {
        store(rows, literal, u);
    }
}
