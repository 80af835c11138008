// The answer with a table of rows of its own, in one of four sizes: a program whose rows are short neither clears nor reserves a
// megabyte.
ghost use Rattle.std.specs.Prelude.{◌+◌, ◌^◌, ◌<◌};
ghost use Rattle.tree.specs.Inside.Tables.{held, Kept};
ghost use Rattle.decision.specs.Inside.Steps.{Asked, Plans, Settles};

use crate::answering::{Plan, settle};
use answer::Answer;
use program::RuleTable;
use tree::nodes::Columns;

// Writes the argument list of the program that the table holds, and answers the literal. There is no answer where the argument
// table is too short.
pub fn query(
    table: &RuleTable,
    arguments: &mut [u32],
    literal: u64,
    budget: u32,
    columns: &mut Columns<'_>,
) -> Option<Answer>
    requires { Asked table.now literal budget (held columns.old) }
    ensures settles { Settles table.now literal budget result arguments.old arguments.new (held columns.old) (held columns.new) }
    ensures kept { Kept columns.old columns.new }
{
    let mut live = [0u64; 419];
    let mut keep = [0u64; 128];
    let mut base = [0u64; 128];
    let ground = closing::plan(table, &mut live, &mut keep, &mut base);
    let plan = Plan {
        ground,
        live: &live,
        keep: &keep,
        base: &base,
    };
    let last = ground.end + ground.span;
    if last < 512 {
        return with_rows::<512>(table, plan, arguments, literal, budget, columns);
    }
    if last < 2304 {
        return with_rows::<2304>(table, plan, arguments, literal, budget, columns);
    }
    if last < 8464 {
        return with_rows::<8464>(table, plan, arguments, literal, budget, columns);
    }
    with_rows::<133120>(table, plan, arguments, literal, budget, columns)
}

// With a table of N words. Each size has a frame of its own, which `query` does not take.
#[inline(never)]
fn with_rows<const N: usize>(
    table: &RuleTable,
    plan: Plan<'_>,
    arguments: &mut [u32],
    literal: u64,
    budget: u32,
    columns: &mut Columns<'_>,
) -> Option<Answer>
    requires asked { Asked table.now literal budget (held columns.old) }
    requires plans { Plans table.now plan }
    requires room { (plan.ground.end + plan.ground.span < N) × (N < 2 ^ 32) }
    ensures settles { Settles table.now literal budget result arguments.old arguments.new (held columns.old) (held columns.new) }
    ensures kept { Kept columns.old columns.new }
{
    let mut rows = [0u64; N];
    settle(table, plan, &mut rows, arguments, literal, budget, columns)
}
