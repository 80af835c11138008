// Preference between arguments by chains of listed pairs. An argument's rules are those of its mask.
#![tactic(auto)]

ghost use Rattle.std.specs.Prelude.{◌≡◌, ◌<◌, ◌^◌};
ghost use Rattle.program.specs.Program.{Program};
ghost use Rattle.program.specs.Limits.{Limits, Mask};
ghost use Rattle.program.specs.Inside.Table.{Holds};
ghost use Rattle.preference.specs.Preference.{beats_some, preferred_test};

use literals::masks;
use program::RuleTable;

// Some rule of x beats some rule of z.
pub fn beats_some(table: &RuleTable, x: u64, z: u64) -> bool
    requires { x < 2 ^ 16 }
    ensures { (p : Program) → Limits p → Holds p table.now → Mask p x
        → result ≡ beats_some p x z }
{
    for bit in masks::bits(x) {
        if program::beaten(table, bit) & z != 0 {
            return true;
        }
    }
    false
}

// x is preferred over z: some rule of x beats some rule of z, and none the other way.
pub fn preferred(table: &RuleTable, x: u64, z: u64) -> bool
    requires x_bound { x < 2 ^ 16 }
    requires z_bound { z < 2 ^ 16 }
    ensures { (p : Program) → Limits p → Holds p table.now → Mask p x → Mask p z
        → result ≡ preferred_test p x z }
{
    beats_some(table, x, z) && !beats_some(table, z, x)
}
