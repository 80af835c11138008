// A step's node: its place on the line, its entry in the tables, and its mark.
ghost use Rattle.std.specs.Prelude.{◌≡◌, ◌<◌};
ghost use Rattle.defeat.specs.Inside.Kinds.{number_of_kind};
ghost use Rattle.tree.specs.Inside.Tables.{held, Kept};
ghost use Rattle.tree.specs.Inside.Steps.{number_of_mark, settled_by, answered, Enters, Entered};

use crate::candidates::Reply;
use defeat::kinds::Kind;

// A forest in lent tables: one table of numbers for each field of the nodes' entries.
#[derive(Drop)]
pub struct Columns<'t> {
    pub indexes: &'t mut [u32],
    pub parents: &'t mut [u32],
    pub kinds: &'t mut [u8],
    pub marks: &'t mut [u8],
}

// A step on a line: an argument, by its index in the argument list, that replies to the line's last one; a root's has no
// kind. `own` and `other` are the masks of the step's own side on the line and of the other side; `at` is its node's number.
#[derive(Clone, Copy)]
pub struct Step {
    pub index: usize,
    pub kind: Option<Kind>,
    pub depth: usize,
    pub own: u64,
    pub other: u64,
    pub parent: usize,
    pub at: usize,
}

impl Step {
    // The step of a reply to this one: the sides change places. `joined` has the masks of this one's side with its own.
    pub fn answered(self, joined: u64, reply: Reply, at: usize) -> Self
        requires { self.depth < 4096 }
        ensures { result ≡ answered self joined reply at }
    {
        Step {
            index: reply.index,
            kind: Some(reply.kind),
            depth: self.depth + 1,
            own: self.other,
            other: joined,
            parent: self.at,
            at,
        }
    }
}

// A node's mark: U or D.
#[derive(Clone, Copy, PartialEq, Eq, Debug)]
pub enum Mark {
    Undefeated = 1,
    Defeated = 2,
}

impl Mark {
    // The mark's number.
    pub fn number(self) -> u8
        ensures { result ≡ number_of_mark self }
    {
        self as u8
    }

    // The mark after one reply more, whose mark's number is given: a reply that is marked U makes a node D.
    pub fn settled(self, reply: u8) -> Self
        ensures { number_of_mark result ≡ settled_by (number_of_mark self) reply }
    {
        if reply == Mark::Undefeated as u8 {
            Mark::Defeated
        } else {
            self
        }
    }
}

// Puts a step's argument on the line, and its node's entry but the mark into the tables.
pub fn enter(line: &mut [u32], columns: &mut Columns<'_>, step: Step, argument: u32)
    requires { Enters line.old step (held columns.old) }
    ensures entered { Entered line.old line.new step argument (held columns.old) (held columns.new) }
    ensures kept { Kept columns.old columns.new }
{
    line[step.depth] = argument;
    columns.indexes[step.at] = step.index as u32;
    columns.parents[step.at] = step.parent as u32;
    columns.kinds[step.at] = step.kind.map_or(0, Kind::number);
}
