// Warrant: what the calls answer, and what they leave in the lent tables. Crate `calls` has the definitions of the calls,
// specs/ what is claimed of them, proofs/ the theorems.
#![tactic(auto)]

ghost use Rattle.std.specs.Prelude.{◌≡◌, length};
ghost use Rattle.calls.specs.Outcomes.{outcome_of};
ghost use Rattle.calls.specs.Calls.{queried, query_arguments, query_nodes};

use answer::Answer;
pub use calls::{check, list};
pub use layout::{Cause, Refusal};
use nodes::Node;
use tree::nodes::Columns;

mod columns;

// A literal's answer, the argument list and the forest in the lent tables; or the first cause that applies.
pub fn query(
    image: &[u8],
    literal: u32,
    budget: u32,
    arguments: &mut [u32],
    nodes: &mut [Node],
) -> Result<Answer, Refusal>
    ensures { (outcome_of result ≡ queried image.now literal budget (length arguments.old) (length nodes.old)) × (arguments.new ≡ query_arguments image.now literal budget arguments.old (length nodes.old)) × (nodes.new ≡ query_nodes image.now literal budget (length arguments.old) nodes.old) }
{
    let mut columns = Columns {
        indexes: &mut [0; 4096],
        parents: &mut [0; 4096],
        kinds: &mut [0; 4096],
        marks: &mut [0; 4096],
    };
    let room = nodes.len();
    let answered = columns::query(image, literal, budget, room, arguments, &mut columns);
    nodes::write(nodes, &columns, answered.map_or(0, Answer::nodes) as usize);
    answered
}
