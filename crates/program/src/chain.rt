// Chains of pairs: a rule that beats another beats what that one beats.
ghost use Rattle.std.specs.Prelude.{◌≡◌, ◌<◌, ◌≤◌, length};
ghost use Rattle.program.specs.Program.{Program, defeasibles};
ghost use Rattle.program.specs.Limits.{Limits};
ghost use Rattle.program.specs.Inside.Filling.{ListedIn, HandedOn, Chained};

use crate::{RuleTable, beaten, store_beaten};
use literals::masks;

// Each rule that beats the one with bit k takes over what that one beats.
fn hand_on(table: &mut RuleTable, bits: u64, k: u64)
    requires { (bits ≤ 16) × (k < bits) }
    ensures { HandedOn k bits table.old table.new }
{
    let handed = beaten(table, k);
    if handed == 0 {
        return;
    }
    for i in 0..bits {
        let own = beaten(table, i);
        if masks::has(own, k) {
            store_beaten(table, i, own | handed);
        }
    }
}

// From the masks of the rules that each beats by a listed pair to those of all that it beats: chains through each bit in
// turn. Where no pair is listed there is nothing to do.
pub fn all(table: &mut RuleTable, bits: u64, pairs: usize)
    requires { bits ≤ 16 }
    ensures { (p : Program) → Limits p → bits ≡ defeasibles p.rules → pairs ≡ length p.pairs → ListedIn p table.old → Chained p table.new }
{
    if pairs == 0 {
        return;
    }
    for k in 0..bits {
        hand_on(table, bits, k);
    }
}
