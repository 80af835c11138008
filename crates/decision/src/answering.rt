// From the argument list to the answer: the forest in its tables, then its outcome.
ghost use Rattle.std.specs.Prelude.{◌+◌, ◌^◌, ◌<◌, length, MatchOption};
ghost use Rattle.tree.specs.Inside.Tables.{held, Kept};
ghost use Rattle.tree.specs.Inside.Roots.{ForestBuilt, ForestOver};
ghost use Rattle.answer.specs.Answer.{tests};
ghost use Rattle.decision.specs.Inside.Steps.{Held, Asked, Plans, Listing, Decidable, Decided, Settles};

use crate::occurrence::occurs;
use answer::Answer;
use closing::Ground;
use forest::roots::Grown;
use literals::LiteralSet;
use program::RuleTable;
use tree::candidates::Framework;
use tree::nodes::Columns;

// The rows as planned: where they stand, and the live rules that they are filled from.
#[derive(Clone, Copy)]
pub struct Plan<'t> {
    pub ground: Ground,
    pub live: &'t RuleTable,
    pub keep: &'t [u64; 128],
    pub base: &'t [u64; 128],
}

// Fills the lent table of rows as it was planned, writes the argument list and answers the literal. There is no answer where
// the argument table is too short.
pub fn settle(
    table: &RuleTable,
    plan: Plan<'_>,
    rows: &mut [u64],
    arguments: &mut [u32],
    literal: u64,
    budget: u32,
    columns: &mut Columns<'_>,
) -> Option<Answer>
    requires asked { Asked table.now literal budget (held columns.old) }
    requires plans { Plans table.now plan }
    requires span_in_bounds { (plan.ground.end + plan.ground.span < length rows.old) × (length rows.old < 2 ^ 32) }
    ensures settles { Settles table.now literal budget result arguments.old arguments.new (held columns.old) (held columns.new) }
    ensures kept { Kept columns.old columns.new }
{
    closing::fill(plan.live, plan.ground, plan.keep, plan.base, rows);
    let reached = plan.ground.derived.union(plan.ground.literals);
    let count = collecting::list(rows, reached, arguments)?;
    Some(decide(
        table,
        rows,
        &arguments[..count as usize],
        literal,
        budget,
        columns,
    ))
}

// Answers the literal.
fn decide(
    table: &RuleTable,
    rows: &[u64],
    arguments: &[u32],
    literal: u64,
    budget: u32,
    columns: &mut Columns<'_>,
) -> Answer
    requires { Decidable table.now rows.now arguments.now literal budget (held columns.old) }
    ensures decided { (w : Held table.now) → Listing w rows.now arguments.now
        → Decided w.program literal budget result (held columns.old) (held columns.new) }
    ensures kept { Kept columns.old columns.new }
{
    if !occurs(table, literal) {
        return Answer::Unknown;
    }
    let grown = grow(table, rows, arguments, literal, budget, columns);
    outcome::conclude(grown, budget, columns)
}

// Writes the forest, with tables of its own for the exclusion sets and the line.
fn grow(
    table: &RuleTable,
    rows: &[u64],
    arguments: &[u32],
    literal: u64,
    budget: u32,
    columns: &mut Columns<'_>,
) -> Option<Grown>
    requires { Decidable table.now rows.now arguments.now literal budget (held columns.old) }
    ensures grown { (w : Held table.now) → Listing w rows.now arguments.now → MatchOption result
        (ForestOver (tests w.program) literal budget (held columns.old) (held columns.new))
        (λ g. ForestBuilt (tests w.program) literal budget g.nodes g.won g.lost (held columns.old) (held columns.new)) }
    ensures kept { Kept columns.old columns.new }
{
    let mut exclusions = [0u64; 256];
    let conclusions = excluded::conclusions(arguments);
    let derived = derivation::close(table, 0, LiteralSet::empty());
    excluded::fill(table, derived, conclusions, &mut exclusions);
    let mut line = [0u32; 4096];
    let framework = Framework {
        table,
        rows,
        exclusions: &exclusions,
        arguments,
    };
    forest::roots::forest(&framework, literal, &mut line, budget as usize, columns)
}
