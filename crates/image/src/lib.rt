// The program image: from bytes to the rule table in one pass, or the first cause that refuses them.
#![tactic(auto)]

ghost use Rattle.std.specs.Prelude.{◌≡◌, ◌≤◌, length};
ghost use Rattle.program.specs.Program.{Program, defeasibles};
ghost use Rattle.program.specs.Limits.{Limits};
ghost use Rattle.program.specs.Inside.Table.{Holds};
ghost use Rattle.program.specs.Inside.Filling.{ListedIn};
ghost use Rattle.layout.specs.Causes.{accepted, verdict};
ghost use Rattle.layout.specs.Reading.{program_in};

mod pairs;
mod rules;

use layout::header::Counts;
use layout::{Refusal, header};
use program::{RuleTable, chain};

// Chains of pairs and the counts, which come last.
fn finish(table: &mut RuleTable, counts: Counts, bits: u64)
    requires { bits ≤ 16 }
    ensures { (p : Program) → Limits p → bits ≡ defeasibles p.rules → counts.atoms ≡ p.atoms → counts.rules ≡ length p.rules → counts.pairs ≡ length p.pairs → ListedIn p table.old → Holds p table.new }
{
    chain::all(table, bits, counts.pairs);
    program::store_counts(table, counts.rules as u64, bits, counts.atoms as u64);
}

// Reads an image into the rule table, or says why not: then the table may be half filled.
pub fn read(image: &[u8], table: &mut RuleTable) -> Result<(), Refusal>
    ensures { (result ≡ verdict image.now) × (verdict image.now ≡ accepted → Holds (program_in image.now) table.new) }
{
    let (counts, next) = header::read(image)?;
    let mut links = [0; 224];
    let (bits, from) = rules::read(image, table, &mut links, counts, next)?;
    pairs::read(image, from, table, counts)?;
    finish(table, counts, bits);
    Ok(())
}
