// The plan of projected rows: which rules bear on each literal, above the lowest six bits, and where each row begins.
#![tactic(auto)]

ghost use Rattle.std.specs.Prelude.{◌≡◌, ◌+◌, ◌*◌, ◌^◌, ◌<◌, ◌≤◌};
ghost use Rattle.program.specs.Inside.Table.{rule_count, Shaped};
ghost use Rattle.literals.specs.Inside.Words.{set_of};
ghost use Rattle.rows.specs.Switched.{NeedsOne};
ghost use Rattle.rows.specs.Layout.{Bearing};
ghost use Rattle.plans.specs.Steps.{Small, Joined, Bears, PlacedIn};

use literals::LiteralSet;
use program::RuleTable;

// What each row keeps: rounds over the rules until one adds nothing.
pub fn bearing(table: &RuleTable, keep: &mut [u64; 128])
    requires shaped { Shaped table.now }
    requires needs_one { NeedsOne table.now }
    ensures small { Small keep.new }
    ensures bearing { Bearing table.now keep.new }
{
    rows::clear(keep);
    while round(table, keep) {}
}

// Where the row of each literal of a set begins: one after the other, from word `start` on. Where they end.
pub fn place(keep: &[u64; 128], literals: LiteralSet, start: u64, base: &mut [u64; 128]) -> u64
    requires small { Small keep.now }
    requires start_bound { start ≤ 1024 }
    ensures result_bounds { (start ≤ result) × (result ≤ 132096) }
    ensures placed_in { PlacedIn keep.now base.new (set_of literals) start result }
    ensures literals_bound { set_of literals < 2 ^ 128 }
{
    let mut n = start;
    for literal in literals {
        let l = literal as usize;
        base[l] = n;
        n = n + keep[l] + 1;
    }
    n
}

// Each rule once, in table order. Some rule added something.
fn round(table: &RuleTable, keep: &mut [u64; 128]) -> bool
    requires shaped { Shaped table.now }
    requires needs_one { NeedsOne table.now }
    ensures { Bears table.now 0 (rule_count table.now) keep.old keep.new result }
{
    let rules = program::rule_count(table);
    let mut grown = false;
    for i in 0..rules {
        grown = grown | bear(table, i, keep);
    }
    grown
}

// What rule i needs, and what bears on its body, bears on its head. It added something.
fn bear(table: &RuleTable, i: u64, keep: &mut [u64; 128]) -> bool
    requires shaped { Shaped table.now }
    requires needs_one { NeedsOne table.now }
    requires i_bound { i < rule_count table.now }
    ensures { Bears table.now i (i + 1) keep.old keep.new result }
{
    let body = program::body(table, i);
    let all = join(keep, body, program::need(table, i) / 64);
    let head = program::head(table, i) as usize;
    let old = keep[head];
    let new = old | all;
    if new == old {
        return false;
    }
    keep[head] = new;
    true
}

// The start with all that is kept for the literals of a set.
fn join(keep: &[u64; 128], literals: LiteralSet, start: u64) -> u64
    ensures { Joined keep.now (set_of literals) start result }
{
    let mut x = start;
    for literal in literals {
        x = x | keep[literal as usize];
    }
    x
}
