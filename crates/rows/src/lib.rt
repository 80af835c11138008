// Rows of switched rules: for each literal the masks under which the rules derive it, 64 masks to a word. Row l has a word for
// each choice of those switches that bear on l, as far as they are above the lowest six. The rules are the rows of a rule
// table, in its order: any order does, bodies before heads is the fastest.
#![tactic(auto)]

ghost use Rattle.std.specs.Prelude.{◌≡◌, true, ℕ, ◌+◌, ◌<◌, ◌≤◌, length, get_or};
ghost use Rattle.literals.specs.Sets.{within as «within_of»};
ghost use Rattle.literals.specs.Inside.Words.{set_of};
ghost use Rattle.program.specs.Program.{Kind};
ghost use Rattle.program.specs.Inside.Table.{need_of, head_at, rule_count, Shaped};
ghost use Rattle.rows.specs.Switched.{NeedsOne};
ghost use Rattle.rows.specs.Layout.{word_of, Rows, Placed, Bearing};
ghost use Rattle.rows.specs.Steps.{LowWord, Met, Readable, Decoded, Fires, OneWord, Above, Rounds};

use literals::{LiteralSet, masks};
use program::RuleTable;

pub mod span;

// For each of the six lowest bits of a mask the places with that bit among the 64 of a word.
pub const PLACES: [u64; 6] = [
    0xAAAA_AAAA_AAAA_AAAA,
    0xCCCC_CCCC_CCCC_CCCC,
    0xF0F0_F0F0_F0F0_F0F0,
    0xFF00_FF00_FF00_FF00,
    0xFFFF_0000_FFFF_0000,
    0xFFFF_FFFF_0000_0000,
];

// Fills the rows, from what they have: rounds over the rules, the last of which changes no row that a rule has read by then.
pub fn fill(table: &RuleTable, keep: &[u64], base: &[u64], rows: &mut [u64])
    requires shaped { Shaped table.now }
    requires needs_one { NeedsOne table.now }
    requires bearing { Bearing table.now keep.now }
    requires placed { Placed table.now keep.now base.now (length rows.old) }
    ensures rows_len_unchanged { length rows.new ≡ length rows.old }
    ensures rows { Rows table.now keep.now base.now rows.old rows.new }
{
    while round(table, keep, base, rows) {}
}

// Nothing is derived yet.
pub fn clear(words: &mut [u64])
    ensures words_len_unchanged { length words.new ≡ length words.old }
    ensures by_index { (l : ℕ) → get_or words.new l 0 ≡ 0 }
{
    words.fill(0);
}

// Each rule once, in table order. A row changed that a rule had read by then.
fn round(table: &RuleTable, keep: &[u64], base: &[u64], rows: &mut [u64]) -> bool
    requires shaped { Shaped table.now }
    requires needs_one { NeedsOne table.now }
    requires placed { Placed table.now keep.now base.now (length rows.old) }
    ensures { (seen : ℕ) × Rounds table.now keep.now base.now
        (rule_count table.now) seen rows.old rows.new result }
{
    let rules = program::rule_count(table);
    let mut seen = LiteralSet::empty();
    let mut late = false;
    for i in 0..rules {
        seen = seen.union(program::body(table, i));
        late = late | (fire(table, i, keep, base, rows) & seen.has(program::head(table, i)));
    }
    late
}

// Rule i for all masks: for each word of its head's row, in descending order.
fn fire(table: &RuleTable, i: u64, keep: &[u64], base: &[u64], rows: &mut [u64]) -> bool
    requires shaped { (Shaped table.now) × (NeedsOne table.now) }
    requires i_bound { i < rule_count table.now }
    requires placed { Placed table.now keep.now base.now (length rows.old) }
    ensures { Fires table.now keep.now base.now i
        (Above table.now keep.now i 0) rows.old rows.new result }
{
    let body = program::body(table, i);
    let need = program::need(table, i);
    let low = low_word(need);
    let must = need / 64;
    let head = program::head(table, i) as usize;
    let kept = keep[head];
    let to = base[head];
    let mut grown = false;
    for w in span::words(kept) {
        grown = grown | fire_word(table, i, w, body, low, must, to, keep, base, rows);
    }
    grown
}

// Rule i for the masks from 64 w on, the rule taken apart: its body, its need, and where its head's row begins.
fn fire_word(
    table: &RuleTable,
    i: u64,
    w: u64,
    body: LiteralSet,
    low: u64,
    must: u64,
    to: u64,
    keep: &[u64],
    base: &[u64],
    rows: &mut [u64],
) -> bool
    requires decoded { Decoded table.now base.now i (set_of body) low must to }
    requires placed { Placed table.now keep.now base.now (length rows.old) }
    requires i_value { within_of w (get_or keep.now (head_at table.now i) 0) ≡ true }
    ensures { Fires table.now keep.now base.now i
        (OneWord w) rows.old rows.new result }
{
    if must & w != must {
        return false;
    }
    let ready = meet(keep, base, rows, w, body, low);
    let at = (to + w) as usize;
    let old = rows[at];
    let new = old | ready;
    if new == old {
        return false;
    }
    rows[at] = new;
    true
}

// The masks of the start for which the rows have each literal of a set.
fn meet(keep: &[u64], base: &[u64], rows: &[u64], w: u64, literals: LiteralSet, start: u64) -> u64
    requires keep_len { (length keep.now ≡ 128) × (length base.now ≡ 128) }
    requires readable { Readable keep.now base.now (length rows.now) (set_of literals) }
    ensures { Met (word_of keep.now base.now rows.now w) (set_of literals) start result }
{
    let mut x = start;
    for literal in literals {
        let l = literal as usize;
        x = x & rows[(base[l] + (w & keep[l])) as usize];
    }
    x
}

// The places of the masks 64 w + .. that have the need, for each w that has what it has above its six lowest bits.
pub fn low_word(need: u64) -> u64
    ensures { (kind : Kind) (b : ℕ) → need ≡ need_of kind b → LowWord need result }
{
    let low = need % 64;
    if low == 0 {
        return 0xFFFF_FFFF_FFFF_FFFF;
    }
    PLACES[masks::lowest(low) as usize]
}
