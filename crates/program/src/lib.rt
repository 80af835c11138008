// The rule table: the words that the engine reads a program from. Its layout stands here and in specs/, nowhere else.
#![tactic(auto)]

ghost use Rattle.std.specs.Prelude.{◌≡◌, ◌<◌};
ghost use Rattle.literals.specs.Inside.Words.{set_of};
ghost use Rattle.program.specs.Inside.Table.{head_at, body_at, need_at, rule_of_bit, beaten_at, rule_count, bit_count, atom_count};
ghost use Rattle.program.specs.Inside.Store.{with_row, with_bit, with_beaten, with_counts};

use literals::LiteralSet;

pub mod chain;

pub type RuleTable = [u64; 419];

// The head of rule i.
pub fn head(table: &RuleTable, i: u64) -> u64
    requires { i < 96 }
    ensures { result ≡ head_at table.now i }
{
    table[(4 * i) as usize]
}

// The body of rule i, as a set.
pub fn body(table: &RuleTable, i: u64) -> LiteralSet
    requires { i < 96 }
    ensures { set_of result ≡ body_at table.now i }
{
    LiteralSet::of_words(table[(4 * i + 1) as usize], table[(4 * i + 2) as usize])
}

// The bits that rule i needs chosen: none if it is strict, else its own.
pub fn need(table: &RuleTable, i: u64) -> u64
    requires { i < 96 }
    ensures { result ≡ need_at table.now i }
{
    table[(4 * i + 3) as usize]
}

// The number of the rule that got bit b.
pub fn rule_of_bit(table: &RuleTable, b: u64) -> u64
    requires { b < 16 }
    ensures { result ≡ rule_of_bit table.now b }
{
    table[(384 + b) as usize]
}

// The mask of the rules that the rule with bit b beats.
pub fn beaten(table: &RuleTable, b: u64) -> u64
    requires { b < 16 }
    ensures { result ≡ beaten_at table.now b }
{
    table[(400 + b) as usize]
}

// How many rules, how many of them defeasible, how many atoms.
pub fn rule_count(table: &RuleTable) -> u64
    ensures { result ≡ rule_count table.now }
{
    table[416]
}

pub fn bit_count(table: &RuleTable) -> u64
    ensures { result ≡ bit_count table.now }
{
    table[417]
}

pub fn atom_count(table: &RuleTable) -> u64
    ensures { result ≡ atom_count table.now }
{
    table[418]
}

// Writes the row of rule i.
pub fn store_row(table: &mut RuleTable, i: u64, head: u64, body: LiteralSet, need: u64)
    requires { i < 96 }
    ensures { table.new ≡ with_row table.old i head body need }
{
    let at = (4 * i) as usize;
    table[at] = head;
    table[at + 1] = body.lo;
    table[at + 2] = body.hi;
    table[at + 3] = need;
}

// Writes which rule got bit b.
pub fn store_bit(table: &mut RuleTable, b: u64, rule: u64)
    requires { b < 16 }
    ensures { table.new ≡ with_bit table.old b rule }
{
    table[(384 + b) as usize] = rule;
}

// Writes the mask of the rules that the rule with bit b beats.
pub fn store_beaten(table: &mut RuleTable, b: u64, mask: u64)
    requires { b < 16 }
    ensures { table.new ≡ with_beaten table.old b mask }
{
    table[(400 + b) as usize] = mask;
}

// Writes the three counts.
pub fn store_counts(table: &mut RuleTable, rules: u64, bits: u64, atoms: u64)
    ensures { table.new ≡ with_counts table.old rules bits atoms }
{
    table[416] = rules;
    table[417] = bits;
    table[418] = atoms;
}
