// What a set of rules derives from given literals. The rules are those of a rule table: the strict ones, and the
// defeasible ones whose bit is in a mask.
#![tactic(auto)]

ghost use Rattle.std.specs.Prelude.{◌≡◌, true, ◌+◌, ◌^◌, ◌<◌, ◌≤◌};
ghost use Rattle.std.specs.Int.Count.{ones};
ghost use Rattle.literals.specs.Sets.{within as «within_of»};
ghost use Rattle.literals.specs.Inside.Words.{set_of};
ghost use Rattle.program.specs.Program.{Program, Π_mask};
ghost use Rattle.program.specs.Inside.Table.{head_at, Holds, Shaped};
ghost use Rattle.derivation.specs.Closure.{closure, excludes as «excludes_of»};
ghost use Rattle.derivation.specs.Gathering.{Rounded, Gathers};
ghost use Rattle.derivation.specs.Inside.Steps.{on_at, Fired};

use literals::{LiteralSet, masks};
use program::RuleTable;

// All that is derived: what is gathered, without the count.
pub fn close(table: &RuleTable, mask: u64, given: LiteralSet) -> LiteralSet
    requires { Shaped table.now }
    ensures { (p : Program) → Holds p table.now → set_of result ≡ closure (Π_mask mask p.rules) (set_of given) }
{
    gather(table, mask, given).0
}

// Two literals exclude each other: Π with both as facts is contradictory.
pub fn excludes(table: &RuleTable, a: u64, b: u64) -> bool
    requires shaped { Shaped table.now }
    requires a_bound { a < 128 }
    requires b_bound { b < 128 }
    ensures { (p : Program) → Holds p table.now → result ≡ excludes_of p.rules a b }
{
    let both = LiteralSet::empty().insert(a).insert(b);
    close(table, 0, both).contradictory()
}

// Rounds, the first of which that adds nothing is the last, and how many there were. Each other one adds a literal, so that
// there is at most one round more than literals are added.
fn gather(table: &RuleTable, mask: u64, given: LiteralSet) -> (LiteralSet, u64)
    requires { Shaped table.now }
    ensures given_bound { result.1 + ones (set_of given) ≤ ones (set_of result.0) + 1 }
    ensures gathers { (p : Program) → Holds p table.now
        → Gathers (Π_mask mask p.rules) (set_of given) (set_of result.0) result.1 }
{
    let mut s = given;
    let mut rounds: u64 = 0;
    loop {
        let (t, _) = round(table, mask, s);
        rounds += 1;
        if t == s {
            return (s, rounds);
        }
        s = t;
    }
}

// Each rule once, in table order, and how many bodies were read.
fn round(table: &RuleTable, mask: u64, start: LiteralSet) -> (LiteralSet, u64)
    requires { Shaped table.now }
    ensures set_value { (within_of (set_of start) (set_of result.0) ≡ true) × (set_of result.0 < 2 ^ 128) }
    ensures rounded { (p : Program) → Holds p table.now
        → Rounded (Π_mask mask p.rules) (set_of start) (set_of result.0) result.1 }
{
    let mut s = start;
    let mut read: u64 = 0;
    let rules = program::rule_count(table);
    for i in 0..rules {
        (s, read) = fire(table, mask, i, s, read);
    }
    (s, read)
}

// The turn of rule i. A rule that is off, or whose head is there, is passed over; of any other the body is read, which counts,
// and if the set has all of it the head goes in.
fn fire(table: &RuleTable, mask: u64, i: u64, s: LiteralSet, read: u64) -> (LiteralSet, u64)
    requires i_bound { (i < 96) × (head_at table.now i < 128) }
    requires read_bound { read < 96 }
    ensures { Fired mask table.now i (set_of s) (set_of result.0) read result.1 }
{
    if !is_on(table, mask, i) {
        return (s, read);
    }
    let head = program::head(table, i);
    if s.has(head) {
        return (s, read);
    }
    let counted = read + 1;
    if program::body(table, i).within(s) {
        return (s.insert(head), counted);
    }
    (s, counted)
}

// Rule i is on: it is strict, or the mask has its bit.
fn is_on(table: &RuleTable, mask: u64, i: u64) -> bool
    requires { i < 96 }
    ensures { result ≡ on_at mask table.now i }
{
    masks::within(program::need(table, i), mask)
}
