// What each mask of defeasible rules derives with the strict ones, in one table of rows: a row of bits for each literal, one for
// each mask, and a row for the contradictory masks. Nobody above reads the table but by these calls.
#![tactic(auto)]

ghost use Rattle.std.specs.Prelude.{◌≡◌, true, ℕ, ◌+◌, ◌*◌, ◌<◌};
ghost use Rattle.literals.specs.Sets.{has as «has_of», within as «within_of»};
ghost use Rattle.minima.specs.Minima.{Minima};
ghost use Rattle.closures.specs.Inside.Table.{keeps_at, word_at, tells, Laid};

use literals::masks;

// The mask derives the literal.
pub fn derives(rows: &[u64], literal: u64, mask: u64) -> bool
    requires { (Laid rows.now) × (literal < 129) }
    ensures { result ≡ tells rows.now literal mask }
{
    masks::has(word(rows, literal, mask / 64), mask % 64)
}

// The mask is contradictory.
pub fn contradictory(rows: &[u64], mask: u64) -> bool
    requires { Laid rows.now }
    ensures { result ≡ tells rows.now 128 mask }
{
    derives(rows, 128, mask)
}

// The contradictory masks among those from 64 w on.
pub fn clashing(rows: &[u64], w: u64) -> u64
    requires { Laid rows.now }
    ensures { (k : ℕ) → k < 64 → has_of result k ≡ tells rows.now 128 (64 * w + k) }
{
    word(rows, 128, w)
}

// The numbers w of the words in which a row has minimal masks are within this one.
pub fn span(rows: &[u64], literal: u64) -> u64
    requires { (Laid rows.now) × (literal < 129) }
    ensures { (result ≡ keeps_at rows.now literal) × (result < 1024) }
{
    rows[(131 + literal) as usize]
}

// The minimal masks of a row among those from 64 w on: they derive the literal, and with one rule less they do not.
pub fn minimal(rows: &[u64], literal: u64, w: u64) -> u64
    requires laid { (Laid rows.now) × (literal < 129) }
    requires literal_value { within_of w (keeps_at rows.now literal) ≡ true }
    ensures { Minima (word_at rows.now literal) w result }
{
    minima::minimal(rows, rows[(2 + literal) as usize], w)
}

// The word of a row for the masks from 64 w on.
pub fn word(rows: &[u64], literal: u64, w: u64) -> u64
    requires { (Laid rows.now) × (literal < 129) }
    ensures { result ≡ word_at rows.now literal w }
{
    let keeps = rows[(131 + literal) as usize];
    let begins = rows[(2 + literal) as usize];
    rows[(begins + (w & keeps)) as usize]
}
