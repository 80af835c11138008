// The layout of the program image: a cursor over its bytes, its header and its directory; and the causes that turn an order
// away.
#![tactic(auto)]

ghost use Rattle.std.specs.Prelude.{◌≡◌};
ghost use Rattle.layout.specs.Causes.{number_of};

use std::fmt;

pub mod cursor;
pub mod header;

// The causes that turn an order away: document 01's numbers, under the names of include/foqtirel.h.
#[derive(Clone, Copy, PartialEq, Eq, Debug)]
pub enum Cause {
    ImageLength = 1,
    Header = 2,
    Directory = 3,
    RuleLength = 4,
    RuleKind = 5,
    LiteralRange = 6,
    BodyOrder = 7,
    DefeasibleWithoutBody = 8,
    TooManyDefeasible = 9,
    RepeatedRule = 10,
    LastPartLength = 11,
    PairNames = 12,
    PairOrder = 13,
    StrictContradiction = 14,
    QueryLiteral = 20,
    Budget = 21,
    NodeTable = 22,
    ArgumentTable = 23,
    OutputTable = 24,
    NumberTable = 25,
    Misfiled = 26,
    ImageAccepted = 28,
    MarkTable = 29,
}

impl Cause {
    // The cause's number.
    pub fn number(self) -> u32
        ensures { result ≡ number_of self }
    {
        self as u32
    }

    // The refusal by this cause, at a place.
    pub fn at(self, place: u32) -> Refusal
        ensures { result ≡ record { cause = self; place = place } }
    {
        Refusal { cause: self, place }
    }
}

// The first cause that applies, and its place: the number of a rule or of a pair, or 0.
#[derive(Clone, Copy, PartialEq, Eq, Debug)]
pub struct Refusal {
    pub cause: Cause,
    pub place: u32,
}

impl fmt::Display for Refusal {
    fn fmt<W: fmt::Write>(&self, f: &mut fmt::Formatter<W>) -> fmt::Result {
        write!(f, "refused {} {}", self.cause.number(), self.place)
    }
}
