// The exclusion table: for each literal of a set, those of the set that exclude it.
#![tactic(auto)]

ghost use Rattle.std.specs.Prelude.{◌≡◌, ◌+◌, ◌*◌, ◌<◌, ◌≤◌, length, set};
ghost use Rattle.literals.specs.Inside.Words.{set_of};
ghost use Rattle.program.specs.Program.{Program, Π};
ghost use Rattle.program.specs.Inside.Table.{Holds, Shaped};
ghost use Rattle.derivation.specs.Closure.{closure};
ghost use Rattle.rows.specs.Layout.{Rows};
ghost use Rattle.excluded.specs.Inside.Exclusions.{excluded_by, Excluded, Conclusions};
ghost use Rattle.excluded.specs.Inside.Strict.{Laid};
ghost use Rattle.excluded.specs.Inside.Rows.{Read};

use argument::numbers;
use literals::LiteralSet;
use program::RuleTable;

mod joint;
mod reach;
mod strict;

// Strict rules, and where the row of each literal stands for them: two words each.
#[derive(Clone, Copy)]
struct LaidRules<'a> {
    rules: &'a RuleTable,
    keep: &'a [u64; 128],
    base: &'a [u64; 128],
    ghost laid: { Laid rules.now keep.now base.now },
}

impl LaidRules<'_> {
    // Fills rows, from what they have.
    fn fill(&self, rows: &mut [u64; 256])
        ensures { Rows self.now.rules.now self.now.keep.now self.now.base.now rows.old rows.new }
    {
        let keep = self.keep;
        let base = self.base;
        rows::fill(self.rules, keep, base, rows);
    }
}

// The literals of the listed arguments whose mask is not empty.
pub fn conclusions(arguments: &[u32]) -> LiteralSet
    ensures { Conclusions (set_of result) arguments.now }
{
    let mut found = LiteralSet::empty();
    for x in arguments {
        if *x >= 128 {
            found = found.insert(numbers::literal_of(*x));
        }
    }
    found
}

// Fills the rows of the literals of u, where Π derives the given set. The literals are the switches: under each literal of u
// one filling has what Π derives from it.
pub fn fill(table: &RuleTable, derived: LiteralSet, u: LiteralSet, exclusions: &mut [u64; 256])
    requires { Shaped table.now }
    ensures { length exclusions.old ≡ 256 → (p : Program) → Holds p table.now
        → set_of derived ≡ closure (Π p.rules) 0 → Excluded p.rules (set_of u) exclusions.new }
{
    let mut rules = [0u64; 419];
    strict::rules(table, derived, u, &mut rules);
    let keep = [1u64; 128];
    let mut base = [0u64; 128];
    reach::place(&mut base);
    let mut reach = [0u64; 256];
    reach::start(derived, u, &mut reach);
    let laid = LaidRules {
        rules: &rules,
        keep: &keep,
        base: &base,
    };
    laid.fill(&mut reach);
    joint::fill(&laid, u, &reach, exclusions);
}

// The row of a literal.
pub fn entry(rows: &[u64; 256], literal: u64) -> LiteralSet
    requires { literal < 128 }
    ensures row { set_of result ≡ excluded_by rows.now literal }
    ensures bits { Read rows.now literal (set_of result) }
{
    let at = (2 * literal) as usize;
    LiteralSet::of_words(rows[at], rows[at + 1])
}

// Writes the row of a literal.
pub fn store(rows: &mut [u64; 256], literal: u64, row: LiteralSet)
    requires { literal < 128 }
    ensures { rows.new ≡ set (set rows.old (2 * literal) row.lo) (2 * literal + 1) row.hi }
{
    let at = (2 * literal) as usize;
    rows[at] = row.lo;
    rows[at + 1] = row.hi;
}
