// The strict rules of a program by themselves, as far as Π does not settle them.
ghost use Rattle.std.specs.Prelude.{◌≡◌, true, ℕ, ◌+◌, ◌<◌, ◌≤◌};
ghost use Rattle.literals.specs.Sets.{has as «has_of», union, within as «within_of»};
ghost use Rattle.literals.specs.Inside.Words.{set_of};
ghost use Rattle.program.specs.Inside.Table.{head_at, rule_count, Shaped};
ghost use Rattle.excluded.specs.Inside.Strict.{strict_at, Taken, Open, Quiet, Still, StrictRules};

use literals::LiteralSet;
use program::RuleTable;

// How many rules are taken, and which; the literals that they reach.
#[derive(Clone, Copy)]
pub struct Progress {
    pub n: u64,
    pub taken: LiteralSet,
    pub reach: LiteralSet,
}

// Writes the strict rules whose head Π does not derive as a rule table of their own, with what Π derives cut from their bodies.
// A rule whose body is out of reach, where u is given, never acts and is left out. Literals that are heads are given late,
// so that bodies come before heads where possible.
pub fn rules(table: &RuleTable, derived: LiteralSet, u: LiteralSet, rules: &mut RuleTable)
    requires { Shaped table.now }
    ensures { StrictRules table.now (set_of derived) (union (set_of u) (set_of derived)) rules.new }
{
    let (chosen, heads) = bearing(table, derived);
    let none = Progress {
        n: 0,
        taken: LiteralSet::empty(),
        reach: u.minus(heads).union(derived),
    };
    let some = grow(table, derived, chosen, none, rules);
    let more = Progress {
        n: some.n,
        taken: some.taken,
        reach: some.reach.union(u.union(derived)),
    };
    let last = grow(table, derived, chosen, more, rules);
    program::store_counts(rules, last.n, 0, 0);
}

// The strict rules whose head is not derived, and their heads.
fn bearing(table: &RuleTable, derived: LiteralSet) -> (LiteralSet, LiteralSet)
    requires { Shaped table.now }
    ensures { Open table.now (set_of derived) (rule_count table.now) (set_of result.0) }
{
    let mut rules = LiteralSet::empty();
    let mut heads = LiteralSet::empty();
    for i in 0..program::rule_count(table) {
        if bears(table, i, derived) {
            rules = rules.insert(i);
            heads = heads.insert(program::head(table, i));
        }
    }
    (rules, heads)
}

// Takes rules of a set until none is left whose body is in reach.
fn grow(
    table: &RuleTable,
    derived: LiteralSet,
    chosen: LiteralSet,
    from: Progress,
    rules: &mut RuleTable,
) -> Progress
    requires shaped { Shaped table.now }
    requires fact { Open table.now (set_of derived) (rule_count table.now) (set_of chosen) }
    requires taken { Taken table.now (set_of derived) from.n (set_of from.taken) (set_of from.reach) rules.old }
    ensures reach_value { within_of (set_of from.reach) (set_of result.reach) ≡ true }
    ensures taken_2 { Taken table.now (set_of derived) result.n (set_of result.taken) (set_of result.reach) rules.new }
    ensures by_index { (k : ℕ) → has_of (set_of chosen) k ≡ true → Quiet table.now (set_of result.taken) (set_of result.reach) k }
{
    let mut p = from;
    loop {
        let n = p.n;
        p = pass(table, derived, chosen.minus(p.taken), p, rules);
        if p.n == n {
            return p;
        }
    }
}

// Each rule of a set once.
fn pass(
    table: &RuleTable,
    derived: LiteralSet,
    left: LiteralSet,
    from: Progress,
    rules: &mut RuleTable,
) -> Progress
    requires shaped { Shaped table.now }
    requires by_index { (i : ℕ) → has_of (set_of left) i ≡ true → (i < rule_count table.now) × (strict_at table.now (set_of derived) i ≡ true) }
    requires taken { Taken table.now (set_of derived) from.n (set_of from.taken) (set_of from.reach) rules.old }
    ensures n_value { from.n ≤ result.n }
    ensures reach_value { within_of (set_of from.reach) (set_of result.reach) ≡ true }
    ensures taken_2 { Taken table.now (set_of derived) result.n (set_of result.taken) (set_of result.reach) rules.new }
    ensures still { result.n ≡ from.n → Still table.now (set_of left) (set_of from.taken) (set_of from.reach)
        (set_of result.taken) (set_of result.reach) }
{
    let mut p = from;
    for i in left {
        p = turn(table, i, derived, p, rules);
    }
    p
}

// Rule i's turn: it is taken if its body is in reach.
fn turn(
    table: &RuleTable,
    i: u64,
    derived: LiteralSet,
    p: Progress,
    rules: &mut RuleTable,
) -> Progress
    requires shaped { Shaped table.now }
    requires i_bound { (i < rule_count table.now) × (strict_at table.now (set_of derived) i ≡ true) }
    requires taken { Taken table.now (set_of derived) p.n (set_of p.taken) (set_of p.reach) rules.old }
    ensures n_value { p.n ≤ result.n }
    ensures reach_value { within_of (set_of p.reach) (set_of result.reach) ≡ true }
    ensures taken_2 { Taken table.now (set_of derived) result.n (set_of result.taken) (set_of result.reach) rules.new }
    ensures taken_value { result.n ≡ p.n → (set_of result.taken ≡ set_of p.taken) × (set_of result.reach ≡ set_of p.reach)
        × Quiet table.now (set_of p.taken) (set_of p.reach) i }
{
    if p.taken.has(i) {
        return p;
    }
    let body = program::body(table, i);
    if !body.within(p.reach) {
        return p;
    }
    let head = program::head(table, i);
    program::store_row(rules, p.n, head, body.minus(derived), 0);
    Progress {
        n: p.n + 1,
        taken: p.taken.insert(i),
        reach: p.reach.insert(head),
    }
}

// Rule i is strict, and its head is not derived.
fn bears(table: &RuleTable, i: u64, derived: LiteralSet) -> bool
    requires { (i < 96) × (head_at table.now i < 128) }
    ensures { result ≡ strict_at table.now (set_of derived) i }
{
    (program::need(table, i) == 0) & !derived.has(program::head(table, i))
}
