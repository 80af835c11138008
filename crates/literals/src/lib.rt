// Sets of the 128 literals, two words by value, and masks of defeasible rules. Each operation is one on the number that
// the words hold: the sum of 2^l over the members l.
#![tactic(auto)]

ghost use Rattle.std.specs.Prelude.{◌≡◌, ◌<◌, ◌%◌, eqb};
ghost use Rattle.std.specs.Int.Count.{ones};
ghost use Rattle.std.specs.Iterator.{at_most};
ghost use Rattle.literals.specs.Sets.{has as «has_of», insert as «insert_of», union as «union_of»};
ghost use Rattle.literals.specs.Sets.{minus as «minus_of», within as «within_of», meets as «meets_of», clash, Taken};
ghost use Rattle.literals.specs.Inside.Words.{joined, set_of};

pub mod masks;

// Bit l of lo is literal l, bit l of hi is literal 64 + l.
#[derive(Clone, Copy, PartialEq, Eq, Debug)]
pub struct LiteralSet {
    pub lo: u64,
    pub hi: u64,
}

impl LiteralSet {
    // No literal.
    pub fn empty() -> LiteralSet
        ensures { set_of result ≡ 0 }
    {
        LiteralSet { lo: 0, hi: 0 }
    }

    // The set that two words hold.
    pub fn of_words(lo: u64, hi: u64) -> LiteralSet
        ensures { set_of result ≡ joined hi lo }
    {
        LiteralSet { lo: lo, hi: hi }
    }

    // The set with one literal more.
    pub fn insert(self, literal: u64) -> LiteralSet
        requires { literal < 128 }
        ensures { set_of result ≡ insert_of (set_of self) literal }
    {
        if literal < 64 {
            LiteralSet {
                lo: self.lo | (1u64 << literal),
                hi: self.hi,
            }
        } else {
            LiteralSet {
                lo: self.lo,
                hi: self.hi | (1u64 << (literal - 64)),
            }
        }
    }

    // The literal is a member.
    pub fn has(self, literal: u64) -> bool
        requires { literal < 128 }
        ensures { result ≡ has_of (set_of self) literal }
    {
        masks::has(self.word(literal), literal % 64)
    }

    // The word with the literal's digit. Where it is chosen first, one word is shifted and not both.
    fn word(self, literal: u64) -> u64
        requires { literal < 128 }
        ensures { has_of result (literal % 64) ≡ has_of (set_of self) literal }
    {
        if literal < 64 { self.lo } else { self.hi }
    }

    // Each member is one of the other set.
    pub fn within(self, other: LiteralSet) -> bool
        ensures { result ≡ within_of (set_of self) (set_of other) }
    {
        (self.lo & other.lo == self.lo) & (self.hi & other.hi == self.hi)
    }

    // The members of either set.
    pub fn union(self, other: LiteralSet) -> LiteralSet
        ensures { set_of result ≡ union_of (set_of self) (set_of other) }
    {
        LiteralSet {
            lo: self.lo | other.lo,
            hi: self.hi | other.hi,
        }
    }

    // The members that the other set lacks.
    pub fn minus(self, other: LiteralSet) -> LiteralSet
        ensures { set_of result ≡ minus_of (set_of self) (set_of other) }
    {
        LiteralSet {
            lo: self.lo - (self.lo & other.lo),
            hi: self.hi - (self.hi & other.hi),
        }
    }

    // Both sets have some member.
    pub fn meets(self, other: LiteralSet) -> bool
        ensures { result ≡ meets_of (set_of self) (set_of other) }
    {
        ((self.lo & other.lo) | (self.hi & other.hi)) != 0
    }

    // No literal is a member.
    pub fn is_empty(self) -> bool
        ensures { result ≡ eqb (set_of self) 0 }
    {
        (self.lo | self.hi) == 0
    }

    // How many members there are.
    pub fn count(self) -> u64
        ensures { result ≡ ones (set_of self) }
    {
        u64::count_ones(self.lo) as u64 + u64::count_ones(self.hi) as u64
    }

    // Some literal and its complement are members: 2a and 2a + 1. A digit of w & (w >> 1) is set where two digits in a
    // row are, and the mask keeps the pairs that begin at an even digit.
    pub fn contradictory(self) -> bool
        ensures { result ≡ clash (set_of self) }
    {
        let lo = self.lo & (self.lo >> 1) & 0x5555_5555_5555_5555;
        let hi = self.hi & (self.hi >> 1) & 0x5555_5555_5555_5555;
        (lo | hi) != 0
    }
}

// The literals of a set that are still to come.
#[derive(Clone, Copy)]
pub struct Literals {
    left: LiteralSet,
}

// The literals of a set come in ascending order.
impl IntoIterator for LiteralSet {
    type Item = u64;

    type IntoIter = Literals;

    ghost into_iter_gives = { λ s it. it.left ≡ s };

    fn into_iter(self) -> Literals {
        Literals { left: self }
    }
}

impl Iterator for Literals {
    type Item = u64;

    ghost next_gives = { λ s r t. Taken 128 (set_of s.left) r (set_of t.left) };

    ghost remaining = { λ s. at_most (set_of s.left) };

    fn next(&mut self) -> Option<u64> {
        let lo = self.left.lo;
        let hi = self.left.hi;
        if lo != 0 {
            self.left.lo = masks::rest(lo);
            return Some(masks::lowest(lo));
        }
        if hi != 0 {
            self.left.hi = masks::rest(hi);
            return Some(64 + masks::lowest(hi));
        }
        None
    }
}
