// The first eight bytes, causes 1 and 2, and the directory, cause 3.
ghost use Rattle.std.specs.Prelude.{◌≡◌, not, ◌≤◌};
ghost use Rattle.layout.specs.Layout.{rules_of};
ghost use Rattle.layout.specs.Causes.{bad_directory};
ghost use Rattle.layout.specs.Inside.Steps.{header_of, Along};

use crate::cursor::Cursor;
use crate::{Cause, Refusal};

// How many atoms, rules and preference pairs the image says it has.
#[derive(Clone, Copy, PartialEq, Eq, Debug)]
pub struct Counts {
    pub atoms: usize,
    pub rules: usize,
    pub pairs: usize,
}

// Reads the counts, with the cursor after them. An image that ends before them is shorter than any may be.
pub fn read(image: &[u8]) -> Result<(Counts, Cursor), Refusal>
    ensures { result ≡ header_of image.now }
{
    let length = Cause::ImageLength.at(0);
    let (atoms, rules, middle) = Cursor::start().numbers(image).ok_or(length)?;
    let (pairs, zero, next) = middle.numbers(image).ok_or(length)?;
    if image.len() < 12 {
        return Err(length);
    }
    if 1836 < image.len() {
        return Err(length);
    }
    if 64 < atoms || 96 < rules || 240 < pairs || zero != 0 {
        return Err(Cause::Header.at(0));
    }
    let counts = Counts {
        atoms: usize::from(atoms),
        rules: usize::from(rules),
        pairs: usize::from(pairs),
    };
    Ok((counts, next))
}

// The directory is sound, where the cursor stands at entry `first` and the part before that one ends at `end`.
pub fn directory_sound(image: &[u8], rules: usize, start: Cursor, first: usize, end: usize) -> bool
    requires { (rules ≡ rules_of image.now) × (rules ≤ 96) × (Along image.now start end first) }
    ensures { result ≡ not (bad_directory image.now) }
{
    let mut cursor = start;
    let mut ends = end;
    for i in first..rules + 1 {
        let Some((to, next)) = cursor.follow(image, ends) else {
            return false;
        };
        ends = to;
        cursor = next;
    }
    ends == image.len()
}
