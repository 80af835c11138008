// The argument list, read off the table of rows: an argument's mask is minimal in its literal's row and not contradictory. The
// rows go by literals and the list by masks, so the words with an argument are turned, 64 masks at a time.
#![tactic(auto)]

ghost use Rattle.std.specs.Prelude.{◌≡◌, true, ◌+◌, ◌*◌, ◌<◌, ◌≤◌, length};
ghost use Rattle.std.proofs.lemmas.List.Edits.{sets};
ghost use Rattle.lists.specs.Inside.Stores.{Written};
ghost use Rattle.literals.specs.Sets.{within as «within_of»};
ghost use Rattle.literals.specs.Inside.Words.{set_of};
ghost use Rattle.program.specs.Program.{Program};
ghost use Rattle.program.specs.Limits.{Limits};
ghost use Rattle.argument.specs.List.{argument_list};
ghost use Rattle.listing.specs.Inside.Listing.{listed, with_list};
ghost use Rattle.closures.specs.Inside.Table.{keeps_at, Laid, Tells};
ghost use Rattle.collecting.specs.Inside.Columns.{Derivable, Word, word_count, row_count, literals_count, list_of, word_list, words_list};
ghost use Rattle.collecting.specs.Inside.Columns.{Marks, Members, InWord, InRow, Marked, Put, Turned, columns_list};

use listing::arguments;
use literals::{LiteralSet, masks};
use rows::span;

// Writes the argument list and returns the number of arguments; `literals` has every literal that some mask derives. They are
// counted first: a table that is too short is left as it was, and there is no number.
pub fn list(rows: &[u64], literals: LiteralSet, arguments: &mut [u32]) -> Option<u32>
    requires { Laid rows.now }
    ensures result { (p : Program) → Limits p → Tells p.rules rows.now → Derivable p.rules (set_of literals)
        → result ≡ listed (argument_list p.rules) arguments.old }
    ensures written { (p : Program) → Limits p → Tells p.rules rows.now → Derivable p.rules (set_of literals)
        → arguments.new ≡ with_list (argument_list p.rules) arguments.old }
{
    let mut touched = [0u64; 16];
    let count = count(rows, literals, &mut touched);
    if arguments.len() < count as usize {
        return None;
    }
    write(rows, literals, &touched, arguments);
    Some(count)
}

// How many arguments there are; marks the words that have some.
fn count(rows: &[u64], literals: LiteralSet, touched: &mut [u64]) -> u32
    requires { (Laid rows.now) × (length touched.old ≡ 16) }
    ensures value { result ≡ length (list_of rows.now (set_of literals)) }
    ensures marks { Marks rows.now (InRow (Members (set_of literals))) touched.old touched.new }
{
    let mut found: u64 = 0;
    for literal in literals {
        found += count_row(rows, literal, touched);
    }
    found as u32
}

// The arguments for one literal: the words of its row, in descending order.
fn count_row(rows: &[u64], literal: u64, touched: &mut [u64]) -> u64
    requires { (Laid rows.now) × (literal < 128) × (length touched.old ≡ 16) }
    ensures value { (result ≡ row_count rows.now literal) × (result ≤ 65536) }
    ensures marks { Marks rows.now (InRow (λ l. l ≡ literal)) touched.old touched.new }
{
    let span = closures::span(rows, literal);
    let mut found: u64 = 0;
    for w in span::words(span) {
        found += count_word(rows, literal, w, touched);
    }
    found
}

// The arguments for one literal in one word.
fn count_word(rows: &[u64], literal: u64, w: u64, touched: &mut [u64]) -> u64
    requires laid { (Laid rows.now) × (literal < 128) × (length touched.old ≡ 16) }
    requires literal_value { within_of w (keeps_at rows.now literal) ≡ true }
    ensures value { (result ≡ word_count rows.now literal w) × (result ≤ 64) }
    ensures marks { Marks rows.now (InWord literal w) touched.old touched.new }
{
    let x = arguments_for(rows, literal, w);
    if x == 0 {
        return 0;
    }
    let at = (w / 64) as usize;
    touched[at] = masks::with_bit(touched[at], w % 64);
    masks::count(x)
}

// The masks from 64 w on of the arguments for a literal.
fn arguments_for(rows: &[u64], literal: u64, w: u64) -> u64
    requires laid { (Laid rows.now) × (literal < 128) }
    requires literal_value { within_of w (keeps_at rows.now literal) ≡ true }
    ensures { Word rows.now literal w result }
{
    let x = closures::minimal(rows, literal, w);
    if x == 0 {
        return 0;
    }
    x - (x & closures::clashing(rows, w))
}

// Writes the list into a table that is long enough. Each word with an argument is marked in `touched`.
fn write(rows: &[u64], literals: LiteralSet, touched: &[u64], arguments: &mut [u32])
    requires laid { (Laid rows.now) × (length touched.now ≡ 16) }
    requires marked { Marked rows.now (set_of literals) touched.now }
    requires literals_in_bounds { length (list_of rows.now (set_of literals)) ≤ length arguments.old }
    ensures { arguments.new ≡ sets arguments.old 0 (list_of rows.now (set_of literals)) }
{
    let mut at: usize = 0;
    for i in 0..16 {
        at = write_words(rows, literals, touched[i as usize], i, at, arguments);
    }
}

// Writes the arguments of the words 64 i + b, for the members b of `touched`, and returns the next place.
fn write_words(
    rows: &[u64],
    literals: LiteralSet,
    touched: u64,
    i: u64,
    at: usize,
    arguments: &mut [u32],
) -> usize
    requires laid { (Laid rows.now) × (i < 16) }
    requires i_in_bounds { at + length (words_list rows.now (set_of literals) touched i) ≤ length arguments.old }
    ensures { Written arguments.old arguments.new at result (words_list rows.now (set_of literals) touched i) }
{
    let mut next = at;
    for b in masks::bits(touched) {
        next = write_word(rows, literals, 64 * i + b, next, arguments);
    }
    next
}

// Writes the arguments with the masks from 64 w on, and returns the next place.
fn write_word(rows: &[u64], literals: LiteralSet, w: u64, at: usize, arguments: &mut [u32]) -> usize
    requires laid { (Laid rows.now) × (w < 1024) }
    requires w_in_bounds { at + length (word_list rows.now (set_of literals) w) ≤ length arguments.old }
    ensures { Written arguments.old arguments.new at result (word_list rows.now (set_of literals) w) }
{
    let mut columns = [0u64; 128];
    let masks = turn(rows, literals, w, &mut columns);
    write_columns(&columns, masks, w, at, arguments)
}

// Writes the columns of some of the masks from 64 w on, and returns the next place.
fn write_columns(
    columns: &[u64; 128],
    masks: u64,
    w: u64,
    at: usize,
    arguments: &mut [u32],
) -> usize
    requires w_bound { w < 1024 }
    requires w_in_bounds { at + length (columns_list columns.now masks w) ≤ length arguments.old }
    ensures { Written arguments.old arguments.new at result (columns_list columns.now masks w) }
{
    let mut next = at;
    for k in masks::bits(masks) {
        let literals = argument::sets::entry(columns, k);
        next = arguments::write_set(arguments, next, (64 * w + k) * 128, literals);
    }
    next
}

// Puts the literals of the arguments with the masks from 64 w on into the masks' columns, and returns the masks that have some.
fn turn(rows: &[u64], literals: LiteralSet, w: u64, columns: &mut [u64; 128]) -> u64
    requires { (Laid rows.now) × (w < 1024) }
    ensures { Turned rows.now w (Members (set_of literals)) columns.old columns.new 0 result }
{
    let mut masks: u64 = 0;
    for literal in literals {
        masks = turn_row(rows, literal, w, columns) | masks;
    }
    masks
}

// The same for one literal. A row has no argument in a word that it does not span.
fn turn_row(rows: &[u64], literal: u64, w: u64, columns: &mut [u64; 128]) -> u64
    requires laid { (Laid rows.now) × (w < 1024) }
    requires literal_bound { literal < 128 }
    ensures { (Word rows.now literal w result) × (Put literal result columns.old columns.new) }
{
    if !masks::within(w, closures::span(rows, literal)) {
        return 0;
    }
    let x = arguments_for(rows, literal, w);
    put(columns, literal, x);
    x
}

// Puts l into the columns of the members of x.
fn put(columns: &mut [u64; 128], l: u64, x: u64)
    requires { l < 128 }
    ensures { Put l x columns.old columns.new }
{
    for k in masks::bits(x) {
        let at = (2 * k) as usize;
        let s = LiteralSet::of_words(columns[at], columns[at + 1]).insert(l);
        columns[at] = s.lo;
        columns[at + 1] = s.hi;
    }
}
