// A rule within its own part: causes 4 to 9.
#![tactic(auto)]

ghost use Rattle.std.specs.Prelude.{◌≡◌, ◌≤◌};
ghost use Rattle.layout.specs.Causes.{all_below};
ghost use Rattle.part.specs.Inside.Steps.{BodyRead, PartRead};

use layout::cursor::Cursor;
use layout::{Cause, Refusal};
use literals::LiteralSet;

// A rule, its body as a set.
#[derive(Clone, Copy, PartialEq, Eq, Debug)]
pub struct Rule {
    pub defeasible: bool,
    pub head: u64,
    pub body: LiteralSet,
}

// Each literal is below the limit.
fn below(literals: &[u8], limit: u64) -> bool
    ensures { result ≡ all_below limit literals.now }
{
    literals.iter().all(|literal| u64::from(*literal) < limit)
}

// A body as a set, or the first of causes 6 and 7 that applies to it. Cause 6 comes before cause 7, so after a literal out of
// order the rest is looked at for its limit.
fn body_set(literals: &[u8], limit: u64, place: u32) -> Result<LiteralSet, Refusal>
    requires { limit ≤ 128 }
    ensures { BodyRead result literals.now limit place }
{
    let mut set = LiteralSet::empty();
    let mut least = 0;
    for (i, byte) in literals.iter().enumerate() {
        let literal = u64::from(*byte);
        if limit <= literal {
            return Err(Cause::LiteralRange.at(place));
        }
        if literal < least {
            if below(&literals[i + 1..], limit) {
                return Err(Cause::BodyOrder.at(place));
            }
            return Err(Cause::LiteralRange.at(place));
        }
        set = set.insert(literal);
        least = literal + 1;
    }
    Ok(set)
}

// The rule of a part, where `bits` of the earlier rules are defeasible, or the first of causes 4 to 9 that applies to it. A part
// that ends before the head is too short.
pub fn read(part: &[u8], atoms: u64, bits: u64, place: u32) -> Result<Rule, Refusal>
    requires { atoms ≤ 64 }
    ensures { PartRead result part.now atoms bits place }
{
    if 10 < part.len() {
        return Err(Cause::RuleLength.at(place));
    }
    let Some((kind, second, _)) = Cursor::start().pair(part) else {
        return Err(Cause::RuleLength.at(place));
    };
    if 1 < kind {
        return Err(Cause::RuleKind.at(place));
    }
    let head = u64::from(second);
    if 2 * atoms <= head {
        return Err(Cause::LiteralRange.at(place));
    }
    let body = body_set(&part[2..], 2 * atoms, place)?;
    let defeasible = kind == 1;
    if defeasible && part.len() == 2 {
        return Err(Cause::DefeasibleWithoutBody.at(place));
    }
    if defeasible && 16 <= bits {
        return Err(Cause::TooManyDefeasible.at(place));
    }
    Ok(Rule {
        defeasible,
        head,
        body,
    })
}
