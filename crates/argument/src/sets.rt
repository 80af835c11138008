// A table of literal sets, two words each.
ghost use Rattle.std.specs.Prelude.{◌≡◌, ◌+◌, ◌*◌, ◌<◌, length};
ghost use Rattle.literals.specs.Inside.Words.{set_of};
ghost use Rattle.argument.specs.Inside.Sets.{set_at};

use literals::LiteralSet;

// Set number i.
pub fn entry(table: &[u64], i: u64) -> LiteralSet
    requires { (i < 65536) × (2 * i + 1 < length table.now) }
    ensures { set_of result ≡ set_at table.now i }
{
    let at = (2 * i) as usize;
    LiteralSet::of_words(table[at], table[at + 1])
}
