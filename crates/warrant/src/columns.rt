// The query over four tables of numbers, one for each field of the node entries.
ghost use Rattle.std.specs.Prelude.{◌≡◌, length};
ghost use Rattle.tree.specs.Inside.Tables.{held, Kept, Hold};
ghost use Rattle.calls.specs.Outcomes.{outcome_of};
ghost use Rattle.calls.specs.Calls.{queried, query_arguments};
ghost use Rattle.warrant.specs.Inside.Columns.{query_columns};

use answer::Answer;
use layout::{Cause, Refusal};
use tree::nodes::Columns;

// Answers a literal beside a node table of `room` entries. What the four tables held before plays no part in the answer.
pub fn query(
    image: &[u8],
    literal: u32,
    budget: u32,
    room: usize,
    arguments: &mut [u32],
    columns: &mut Columns<'_>,
) -> Result<Answer, Refusal>
    requires { Hold 4096 (held columns.old) }
    ensures answer { (outcome_of result ≡ queried image.now literal budget (length arguments.old) room)
        × (arguments.new ≡ query_arguments image.now literal budget arguments.old room)
        × (held columns.new ≡ query_columns image.now literal budget (length arguments.old) room (held columns.old)) }
    ensures kept { Kept columns.old columns.new }
{
    let mut table = [0u64; 419];
    calls::load(image, &mut table)?;
    if 128 <= literal {
        return Err(Cause::QueryLiteral.at(0));
    }
    if 4096 < budget {
        return Err(Cause::Budget.at(0));
    }
    if room < budget as usize {
        return Err(Cause::NodeTable.at(0));
    }
    decision::sized::query(&table, arguments, literal as u64, budget, columns).ok_or(
        Cause::ArgumentTable.at(0),
    )
}
