// Answers of a program: specs/ defines when each is given, proofs/ shows it.
#![tactic(auto)]

ghost use Rattle.std.specs.Prelude.{◌≡◌};
ghost use Rattle.answer.specs.Answer.{code_of, nodes_of};

use std::fmt;

// A literal's answer with its number of nodes.
#[derive(Clone, Copy, PartialEq, Eq, Debug)]
pub enum Answer {
    Yes { nodes: u32 },
    No { nodes: u32 },
    Undecided { nodes: u32 },
    Unknown,
    Unfinished { nodes: u32 },
}

impl Answer {
    // The answer's number.
    pub fn code(self) -> u32
        ensures { result ≡ code_of self }
    {
        match self {
            Answer::Yes { nodes: _ } => 1,
            Answer::No { nodes: _ } => 2,
            Answer::Undecided { nodes: _ } => 3,
            Answer::Unknown => 4,
            Answer::Unfinished { nodes: _ } => 5,
        }
    }

    // How many nodes come with it.
    pub fn nodes(self) -> u32
        ensures { result ≡ nodes_of self }
    {
        match self {
            Answer::Yes { nodes }
            | Answer::No { nodes }
            | Answer::Undecided { nodes }
            | Answer::Unfinished { nodes } => nodes,
            Answer::Unknown => 0,
        }
    }
}

// The answer's name and its number of nodes.
impl fmt::Display for Answer {
    fn fmt<W: fmt::Write>(&self, f: &mut fmt::Formatter<W>) -> fmt::Result {
        match *self {
            Answer::Yes { nodes } => write!(f, "YES {nodes}"),
            Answer::No { nodes } => write!(f, "NO {nodes}"),
            Answer::Undecided { nodes } => write!(f, "UNDECIDED {nodes}"),
            Answer::Unknown => write!(f, "UNKNOWN 0"),
            Answer::Unfinished { nodes } => write!(f, "UNFINISHED {nodes}"),
        }
    }
}
