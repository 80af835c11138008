// The calls on an image that build no tree: whether it is accepted, and its arguments. specs/ has the definitions of every
// call.
#![tactic(auto)]

ghost use Rattle.std.specs.Prelude.{◌≡◌, length};
ghost use Rattle.program.specs.Inside.Table.{Holds};
ghost use Rattle.calls.specs.Verdicts.{told, Accepted};
ghost use Rattle.layout.specs.Reading.{program_in};
ghost use Rattle.calls.specs.Outcomes.{outcome_of};
ghost use Rattle.calls.specs.Calls.{check_image, listed, list_table};

use layout::{Cause, Refusal};
use literals::LiteralSet;
use program::RuleTable;

// The first of causes 1 to 14 that applies to an image.
pub fn check(image: &[u8]) -> Result<(), Refusal>
    ensures { told result ≡ check_image image.now }
{
    let mut table = [0u64; 419];
    load(image, &mut table)
}

// Reads an image into the rule table: the first of causes 1 to 14 that applies.
pub fn load(image: &[u8], table: &mut RuleTable) -> Result<(), Refusal>
    ensures { (told result ≡ check_image image.now) × (check_image image.now ≡ Accepted → Holds (program_in image.now) table.new) }
{
    image::read(image, table)?;
    if derivation::close(table, 0, LiteralSet::empty()).contradictory() {
        return Err(Cause::StrictContradiction.at(0));
    }
    Ok(())
}

// The argument list of an image's program in the lent table: their number, or the first of causes 1 to 14 and 23.
pub fn list(image: &[u8], arguments: &mut [u32]) -> Result<u32, Refusal>
    ensures { (outcome_of result ≡ listed image.now (length arguments.old)) × (arguments.new ≡ list_table image.now arguments.old) }
{
    let mut table = [0u64; 419];
    load(image, &mut table)?;
    sizes::list(&table, arguments).ok_or(Cause::ArgumentTable.at(0))
}
