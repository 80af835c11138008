// Whether a literal's atom stands in some rule.
ghost use Rattle.std.specs.Prelude.{◌≡◌, ℕ, ◌<◌};
ghost use Rattle.program.specs.Program.{Rule, Program};
ghost use Rattle.program.specs.Inside.Table.{Row, Holds, Shaped};
ghost use Rattle.answer.specs.Answer.{occurs as «occurs_in»};
ghost use Rattle.decision.specs.Inside.Steps.{stands_in};

use program::RuleTable;

// In some rule.
pub fn occurs(table: &RuleTable, literal: u64) -> bool
    requires shaped { Shaped table.now }
    requires literal_bound { literal < 128 }
    ensures { (p : Program) → Holds p table.now → result ≡ occurs_in p literal }
{
    for i in 0..program::rule_count(table) {
        if stands(table, i, literal) {
            return true;
        }
    }
    false
}

// In rule i, as its head or in its body.
fn stands(table: &RuleTable, i: u64, literal: u64) -> bool
    requires i_bound { i < 96 }
    requires literal_bound { literal < 128 }
    ensures { (r : Rule) (b : ℕ) → Row r b table.now i → result ≡ stands_in literal r }
{
    if program::head(table, i) / 2 == literal / 2 {
        return true;
    }
    let body = program::body(table, i);
    let plain = 2 * (literal / 2);
    if body.has(plain) {
        return true;
    }
    body.has(plain + 1)
}
