// What a forest comes to: the answer from its number of nodes and its roots, and zeros in its tables where it has more nodes
// than the budget.
#![tactic(auto)]

ghost use Rattle.std.specs.Prelude.{◌≤◌, ◌≡◌, length, replicate};
ghost use Rattle.std.specs.Option.{ForSome};
ghost use Rattle.tree.specs.Inside.Tables.{held, Kept, Hold};
ghost use Rattle.answer.specs.Tables.{front};
ghost use Rattle.outcome.specs.Outcome.{concluded, cleared_unless};

use answer::Answer;
use forest::roots::Grown;
use tree::nodes::Columns;

// The answer from the forest. None is one with more nodes than the budget. Of such a forest the entries are zeroed.
pub fn conclude(grown: Option<Grown>, budget: u32, columns: &mut Columns<'_>) -> Answer
    requires nodes_bound { ForSome grown (λ g. g.nodes ≤ 4097) }
    requires hold { Hold budget (held columns.old) }
    ensures answer { result ≡ concluded grown budget }
    ensures nodes { held columns.new ≡ cleared_unless grown budget (held columns.old) }
    ensures kept { Kept columns.old columns.new }
{
    let Some(grown) = grown.filter(|grown| grown.nodes <= budget as usize) else {
        clear(
            columns.indexes,
            columns.parents,
            columns.kinds,
            columns.marks,
            budget as usize,
        );
        return Answer::Unfinished { nodes: budget };
    };
    let nodes = grown.nodes as u32;
    if grown.won {
        return Answer::Yes { nodes };
    }
    if grown.lost {
        return Answer::No { nodes };
    }
    Answer::Undecided { nodes }
}

// Zeroes the first n entries of each table.
fn clear(indexes: &mut [u32], parents: &mut [u32], kinds: &mut [u8], marks: &mut [u8], n: usize)
    requires { (n ≤ length indexes.old) × (n ≤ length parents.old) × (n ≤ length kinds.old) × (n ≤ length marks.old) }
    ensures indexes { indexes.new ≡ front (replicate n 0) indexes.old }
    ensures parents { parents.new ≡ front (replicate n 0) parents.old }
    ensures kinds { kinds.new ≡ front (replicate n 0) kinds.old }
    ensures marks { marks.new ≡ front (replicate n 0) marks.old }
{
    indexes[..n].fill(0);
    parents[..n].fill(0);
    kinds[..n].fill(0);
    marks[..n].fill(0);
}
