// What a call returns, as one number for a C program.
#![tactic(auto)]

ghost use Rattle.std.specs.Prelude.{◌≡◌, ◌+◌, ◌*◌, ◌<◌};
ghost use Rattle.layout.specs.Causes.{number_of};
ghost use Rattle.calls.specs.Verdicts.{told};
ghost use Rattle.calls.specs.Outcomes.{outcome_of};
ghost use Rattle.answer.specs.Answer.{code_of, nodes_of};
ghost use Rattle.calls.specs.Calls.{refusal_number, verdict_number, count_number, answered_number, packed};

use answer::Answer;
use layout::Refusal;

// A cause's number with its place, whatever number it is: number * 2^32 + place.
pub fn refusal(number: u32, place: u32) -> u64
    ensures { result ≡ refusal_number number place }
{
    (number as u64) * 0x1_0000_0000 + (place as u64)
}

// A cause with its place.
fn refused(refused: Refusal) -> u64
    ensures { result ≡ refusal_number (number_of refused.cause) refused.place }
{
    refusal(refused.cause.number(), refused.place)
}

// An answer: code * 65,536 + nodes.
fn code_and_nodes(answer: Answer) -> u64
    ensures { result ≡ code_of answer * 65536 + nodes_of answer }
{
    (answer.code() as u64) * 0x1_0000 + (answer.nodes() as u64)
}

// 0 where an image is accepted.
pub fn verdict(checked: Result<(), Refusal>) -> u64
    ensures { result ≡ verdict_number (told checked) }
{
    checked.map_or_else(refused, |()| 0)
}

// The number of arguments, or the length of what a call wrote.
pub fn count(counted: Result<u32, Refusal>) -> u64
    ensures { result ≡ count_number (outcome_of counted) }
{
    counted.map_or_else(refused, u64::from)
}

// An answer, or a cause with its place.
pub fn answered(answered: Result<Answer, Refusal>) -> u64
    ensures { result ≡ answered_number (outcome_of answered) }
{
    answered.map_or_else(refused, code_and_nodes)
}

// An answer in 32 bits, or a cause's bare number.
pub fn pack(answered: Result<Answer, Refusal>) -> u32
    requires { packed (outcome_of answered) < 0x1_0000_0000 }
    ensures { result ≡ packed (outcome_of answered) }
{
    match answered {
        Ok(answer) => code_and_nodes(answer) as u32,
        Err(refusal) => refusal.cause.number(),
    }
}
