// The preference pairs of an image whose rules are in the table: causes 11 to 13, and the masks of the rules that each beats by
// a listed pair.
ghost use Rattle.std.specs.Prelude.{◌≡◌, ℕ, ◌^◌, ◌≤◌, ◌<◌, get_or};
ghost use Rattle.literals.specs.Sets.{union};
ghost use Rattle.program.specs.Inside.Table.{need_at, beaten_at};
ghost use Rattle.program.specs.Inside.Store.{with_beaten};
ghost use Rattle.program.specs.Inside.Filling.{ListedIn};
ghost use Rattle.layout.specs.declared.Cause.TheVariants.{LastPartLength};
ghost use Rattle.layout.specs.Layout.{rules_of, pair_count_of};
ghost use Rattle.layout.specs.Causes.{accepted, refuse, and_then, bad_pairs, pairs_verdict};
ghost use Rattle.layout.specs.Reading.{program_in};
ghost use Rattle.image.specs.Inside.Passes.{absent_in, pair_tested, AllRead};

use layout::cursor::Cursor;
use layout::header::Counts;
use layout::{Cause, Refusal};
use literals::masks;
use program::RuleTable;

// The rule with this number is absent or not defeasible.
fn absent(table: &RuleTable, rules: u64, number: u64) -> bool
    requires { rules ≤ 96 }
    ensures { result ≡ absent_in table.now rules number }
{
    if rules <= number {
        return true;
    }
    program::need(table, number) == 0
}

// The first of causes 12 and 13 that applies to a pair, which has to be `least` or more as one number.
fn examine(
    table: &RuleTable,
    rules: u64,
    first: u64,
    second: u64,
    least: u64,
    place: u32,
) -> Result<(), Refusal>
    requires { (rules ≤ 96) × (first < 256) × (second < 256) }
    ensures { result ≡ pair_tested table.now rules first second least place }
{
    if absent(table, rules, first) || absent(table, rules, second) || first == second {
        return Err(Cause::PairNames.at(place));
    }
    if 256 * first + second < least {
        return Err(Cause::PairOrder.at(place));
    }
    Ok(())
}

// The first rule beats the second.
fn beat(table: &mut RuleTable, first: u64, second: u64)
    requires { (first < 96) × (second < 96) × ((k : ℕ) × (k < 16) × (need_at table.old first ≡ 2 ^ k)) }
    ensures { (k : ℕ) → need_at table.old first ≡ 2 ^ k → table.new ≡ with_beaten table.old k (union (beaten_at table.old k) (need_at table.old second)) }
{
    let bit = masks::lowest(program::need(table, first));
    let mask = program::beaten(table, bit) | program::need(table, second);
    program::store_beaten(table, bit, mask);
}

// No rule beats another yet.
fn clear(table: &mut RuleTable)
    ensures { ((b : ℕ) → b < 16 → beaten_at table.new b ≡ 0) × ((w : ℕ) → w < 400 → get_or table.new w 0 ≡ get_or table.old w 0) }
{
    for b in 0..16 {
        program::store_beaten(table, b, 0);
    }
}

// Reads the pairs, from their first byte to the end of the image.
pub fn read(image: &[u8], from: usize, table: &mut RuleTable, counts: Counts) -> Result<(), Refusal>
    requires { ((bits : ℕ) × AllRead image.now table.old bits from) × (counts.rules ≡ rules_of image.now) × (counts.rules ≤ 96) × (counts.pairs ≡ pair_count_of image.now) × (counts.pairs ≤ 240) }
    ensures { (result ≡ and_then (refuse (bad_pairs image.now) LastPartLength 0) (pairs_verdict image.now 0 (pair_count_of image.now))) × (result ≡ accepted → ListedIn (program_in image.now) table.new) }
{
    let rules = counts.rules as u64;
    let pairs = &image[from..];
    if pairs.len() != 2 * counts.pairs {
        return Err(Cause::LastPartLength.at(0));
    }
    clear(table);
    let mut cursor = Cursor::start();
    let mut least = 0;
    let mut place = 0;
    while let Some((first, second, next)) = cursor.pair(pairs) {
        let a = u64::from(first);
        let b = u64::from(second);
        examine(table, rules, a, b, least, place)?;
        beat(table, a, b);
        least = 256 * a + b + 1;
        cursor = next;
        place += 1;
    }
    Ok(())
}
