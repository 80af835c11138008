// The live rules of a program: those that bear on a literal that is derivable and not derived by Π, with what Π derives cut
// from their bodies, bodies before heads where possible.
#![tactic(auto)]

ghost use Rattle.std.specs.Prelude.{◌≡◌, ◌+◌, ◌<◌};
ghost use Rattle.literals.specs.Inside.Words.{set_of};
ghost use Rattle.program.specs.Inside.Table.{rule_count, Shaped};
ghost use Rattle.live.specs.Live.{LiveRules};
ghost use Rattle.live.specs.Steps.{Taken, TakenTo};

use literals::LiteralSet;
use program::RuleTable;

// How many rules are taken, and which; the heads of those that wait.
#[derive(Clone, Copy)]
pub struct Progress {
    pub n: u64,
    pub taken: LiteralSet,
    pub waiting: LiteralSet,
}

// Writes the live rules as a rule table of their own: a rule waits while another for a literal of its body does. What waits
// in vain is taken last.
pub fn live_rules(
    table: &RuleTable,
    derived: LiteralSet,
    literals: LiteralSet,
    live: &mut RuleTable,
)
    requires { Shaped table.now }
    ensures { LiveRules table.now (set_of derived) (set_of literals) live.new }
{
    let mut taken = Progress {
        n: 0,
        taken: LiteralSet::empty(),
        waiting: literals,
    };
    for _ in 0..96 {
        let n = taken.n;
        taken = pass(table, derived, literals, taken, live);
        if taken.n == n {
            break;
        }
    }
    taken.waiting = LiteralSet::empty();
    let last = pass(table, derived, literals, taken, live);
    program::store_counts(live, last.n, 0, 0);
}

// Each rule once. What waits before is awaited by all.
fn pass(
    table: &RuleTable,
    derived: LiteralSet,
    literals: LiteralSet,
    from: Progress,
    live: &mut RuleTable,
) -> Progress
    requires shaped { Shaped table.now }
    requires taken { Taken table.now (set_of derived) (set_of literals) from.n (set_of from.taken) live.old }
    ensures taken_2 { Taken table.now (set_of derived) (set_of literals) result.n (set_of result.taken) live.new }
    ensures taken_to { TakenTo table.now (set_of derived) (set_of literals) (set_of from.waiting) (rule_count table.now) (set_of result.taken) }
{
    let rules = program::rule_count(table);
    let mut p = Progress {
        waiting: LiteralSet::empty(),
        ..from
    };
    for i in 0..rules {
        p = turn(table, i, derived, literals, from.waiting, p, live);
    }
    p
}

// Rule i's turn.
fn turn(
    table: &RuleTable,
    i: u64,
    derived: LiteralSet,
    literals: LiteralSet,
    awaited: LiteralSet,
    p: Progress,
    live: &mut RuleTable,
) -> Progress
    requires shaped { Shaped table.now }
    requires i_bound { i < rule_count table.now }
    requires taken { Taken table.now (set_of derived) (set_of literals) p.n (set_of p.taken) live.old }
    ensures taken_2 { Taken table.now (set_of derived) (set_of literals) result.n (set_of result.taken) live.new }
    ensures taken_to { TakenTo table.now (set_of derived) (set_of literals) (set_of awaited) i (set_of p.taken)
        → TakenTo table.now (set_of derived) (set_of literals) (set_of awaited) (i + 1) (set_of result.taken) }
{
    if p.taken.has(i) {
        return p;
    }
    let head = program::head(table, i);
    let body = program::body(table, i).minus(derived);
    if !(literals.has(head) & body.within(literals)) {
        return p;
    }
    if body.meets(awaited) {
        return Progress {
            waiting: p.waiting.insert(head),
            ..p
        };
    }
    program::store_row(live, p.n, head, body, program::need(table, i));
    Progress {
        n: p.n + 1,
        taken: p.taken.insert(i),
        ..p
    }
}
