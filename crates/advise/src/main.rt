// The adviser: reads an image from standard input, prints the number of its arguments and what is answered to each of its
// literals. A read or a write that fails ends it with a line on standard error.
#![tactic(auto)]

ghost use Rattle.std.specs.Prelude.{◌≡◌, ◌+◌, ◌*◌, ◌≤◌, length, IfOk};
ghost use Rattle.std.specs.Option.{ForSome};
ghost use Rattle.answer.specs.Answer.{code_of, nodes_of};

use answer::Answer;
use std::io;
use std::io::{Print, Read};

// An image has at most 1,836 bytes: of a longer input the first 2,048 are enough to refuse it.
fn main(rt: HostRuntime) {
    let mut bytes = [0u8; 2048];
    match read(&mut rt.stdin(), &mut bytes) {
        Ok(length) => {
            if let Err(error) = advise(&rt, &bytes[..length]) {
                tell(&rt.stderr(), "standard output", error);
            }
        }
        Err(error) => tell(&rt.stderr(), "standard input", error),
    }
}

// What failed, and why. Where the line can't be written either, nothing is left to tell it.
fn tell(errors: &impl Print, stream: &str, error: io::Error) {
    let _ = println!(errors; "advise: {stream}: {error}");
}

// Reads standard input to its end, or until the buffer is full.
fn read(input: &mut impl Read, buffer: &mut [u8]) -> io::Result<usize>
    ensures { IfOk result (λ n. n ≤ length buffer.new) }
{
    let mut length: usize = 0;
    while length < buffer.len() {
        match input.read(&mut buffer[length..])? {
            0 => break,
            more => length += more,
        }
    }
    Ok(length)
}

// The number of arguments and each literal's answer, or one line that says why the image is refused.
fn advise(rt: &impl Print, image: &[u8]) -> io::Result<()> {
    let mut arguments = [0u32; 4096];
    match warrant::list(image, &mut arguments) {
        Err(refusal) => println!(rt; "{refusal}"),
        Ok(count) => {
            println!(rt; "arguments {count}")?;
            answers(rt, image)
        }
    }
}

// The image is accepted, so that its first byte is the number of atoms, each with two literals.
fn answers(rt: &impl Print, image: &[u8]) -> io::Result<()> {
    let Some(atoms) = image.first() else {
        return Ok(());
    };
    for literal in 0..2 * u32::from(*atoms) {
        answer(rt, literal, foqtirel::foqtirel_query(image, literal, 4096))?;
    }
    Ok(())
}

// A literal's number, its answer and the nodes, of what the C call returns.
fn answer(rt: &impl Print, literal: u32, packed: u32) -> io::Result<()> {
    match unpacked(packed) {
        Some(answer) => println!(rt; "{literal} {answer}"),
        None => println!(rt; "{literal} refused {packed}"),
    }
}

// The answer that is packed in a number, with its nodes; none in a refusal's.
fn unpacked(packed: u32) -> Option<Answer>
    ensures { ForSome result (λ a. code_of a * 65536 + nodes_of a ≡ packed) }
{
    let nodes = packed % 65536;
    match packed / 65536 {
        1 => Some(Answer::Yes { nodes }),
        2 => Some(Answer::No { nodes }),
        3 => Some(Answer::Undecided { nodes }),
        4 if nodes == 0 => Some(Answer::Unknown),
        5 => Some(Answer::Unfinished { nodes }),
        _ => None,
    }
}
