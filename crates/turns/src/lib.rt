// Supporter and objector take turns down every line. Each step writes the tree of one argument into the tables, in preorder,
// and marks it.
#![tactic(auto)]

ghost use Rattle.tree.specs.Inside.Tables.{held, Kept};
ghost use Rattle.tree.specs.Inside.Steps.{Ready, Leaves};

use argument::numbers::mask_of;
use tree::candidates::{Framework, first_reply};
use tree::nodes::{Columns, Mark, Step, enter};

// Writes the tree of a supporter's argument. Returns the next free number, or None where the tree has more nodes than the
// limit leaves room for. The line is that of the parent.
#[cycle(objector_supporter)]
pub fn supporter(
    framework: &Framework<'_>,
    line: &mut [u32],
    step: Step,
    limit: usize,
    columns: &mut Columns<'_>,
) -> Option<usize>
    requires { Ready framework.now line.old step limit (held columns.old) }
    ensures leaves { Leaves framework.now line.old line.new step limit result (held columns.old) (held columns.new) }
    ensures kept { Kept columns.old columns.new }
{
    if limit <= step.at {
        return None;
    }
    let argument = framework.arguments[step.index];
    enter(line, columns, step, argument);
    let supports = step.own | mask_of(argument);
    let mut mark = Mark::Undefeated;
    let mut next = step.at + 1;
    let mut start = 0;
    // A `for` over all candidates, with the test in it, was tried: up to three times the instructions of this search.
    while let Some(objection) = first_reply(framework, line, step, start) {
        let reply = step.answered(supports, objection, next);
        let end = objector(framework, line, reply, limit, columns)?;
        mark = mark.settled(columns.marks[next]);
        next = end;
        start = objection.index + 1;
    }
    columns.marks[step.at] = mark.number();
    Some(next)
}

// The same for an objector's argument: two steps that call each other, by a rule of the project, and not one for both sides.
#[cycle(objector_supporter)]
pub fn objector(
    framework: &Framework<'_>,
    line: &mut [u32],
    step: Step,
    limit: usize,
    columns: &mut Columns<'_>,
) -> Option<usize>
    requires { Ready framework.now line.old step limit (held columns.old) }
    ensures leaves { Leaves framework.now line.old line.new step limit result (held columns.old) (held columns.new) }
    ensures kept { Kept columns.old columns.new }
{
    if limit <= step.at {
        return None;
    }
    let argument = framework.arguments[step.index];
    enter(line, columns, step, argument);
    let objections = step.own | mask_of(argument);
    let mut mark = Mark::Undefeated;
    let mut next = step.at + 1;
    let mut start = 0;
    while let Some(support) = first_reply(framework, line, step, start) {
        let reply = step.answered(objections, support, next);
        let end = supporter(framework, line, reply, limit, columns)?;
        mark = mark.settled(columns.marks[next]);
        next = end;
        start = support.index + 1;
    }
    columns.marks[step.at] = mark.number();
    Some(next)
}
