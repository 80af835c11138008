// The forest of a literal: the trees of the arguments for it, then those for its complement. An argument for either is a
// root, and a root's step is the supporter's.
ghost use Rattle.std.specs.Prelude.{◌≡◌, ◌<◌, MatchOption};
ghost use Rattle.derivation.specs.Derivation.{complement as «complement_of»};
ghost use Rattle.tree.specs.Inside.Tables.{held, Kept};
ghost use Rattle.tree.specs.Inside.Steps.{Prepared, tests_in};
ghost use Rattle.tree.specs.Inside.Roots.{RootsReady, TreesBuilt, ForestBuilt, TreesOver, ForestOver};

use argument::numbers::literal_of;
use tree::candidates::Framework;
use tree::nodes::{Columns, Mark, Step};
use turns::supporter;

// The next free node number, and whether some root is marked U.
#[derive(Clone, Copy)]
pub struct Rooted {
    pub next: usize,
    pub undefeated: bool,
}

// The number of nodes, and whether the literal has a root marked U, and its complement.
#[derive(Clone, Copy)]
pub struct Grown {
    pub nodes: usize,
    pub won: bool,
    pub lost: bool,
}

// The complement differs in the sign only.
fn complement(literal: u64) -> u64
    requires { literal < 128 }
    ensures { result ≡ complement_of literal }
{
    2 * (literal / 2) + (1 - literal % 2)
}

// Writes the trees of the arguments for one literal, from node number `at` on; None where they have more nodes than the
// limit leaves room for.
fn trees(
    framework: &Framework<'_>,
    literal: u64,
    line: &mut [u32],
    at: usize,
    limit: usize,
    columns: &mut Columns<'_>,
) -> Option<Rooted>
    requires { RootsReady framework.now line.old at limit (held columns.old) }
    ensures built { (w : Prepared framework.now) → MatchOption result
        (TreesOver (tests_in w) literal at limit (held columns.old) (held columns.new))
        (λ r. TreesBuilt (tests_in w) literal at limit r.next r.undefeated (held columns.old) (held columns.new)) }
    ensures kept { Kept columns.old columns.new }
{
    let mut undefeated = false;
    let mut next = at;
    for (index, argument) in framework.arguments.iter().enumerate() {
        if literal_of(*argument) == literal {
            let root = Step {
                index,
                kind: None,
                depth: 0,
                own: 0,
                other: 0,
                parent: next,
                at: next,
            };
            let end = supporter(framework, line, root, limit, columns)?;
            undefeated |= columns.marks[next] == Mark::Undefeated as u8;
            next = end;
        }
    }
    Some(Rooted { next, undefeated })
}

// Writes the forest of a literal; None where it has more nodes than the limit.
pub fn forest(
    framework: &Framework<'_>,
    literal: u64,
    line: &mut [u32],
    limit: usize,
    columns: &mut Columns<'_>,
) -> Option<Grown>
    requires roots_ready { RootsReady framework.now line.old 0 limit (held columns.old) }
    requires literal_bound { literal < 128 }
    ensures built { (w : Prepared framework.now) → MatchOption result
        (ForestOver (tests_in w) literal limit (held columns.old) (held columns.new))
        (λ g. ForestBuilt (tests_in w) literal limit g.nodes g.won g.lost (held columns.old) (held columns.new)) }
    ensures kept { Kept columns.old columns.new }
{
    let first = trees(framework, literal, line, 0, limit, columns)?;
    let second = trees(
        framework,
        complement(literal),
        line,
        first.next,
        limit,
        columns,
    )?;
    Some(Grown {
        nodes: second.next,
        won: first.undefeated,
        lost: second.undefeated,
    })
}
