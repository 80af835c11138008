// The bytes of a program, written into a table that the caller lends. What the bytes are stands in specs/Image.antt. Each step
// starts at a place of the table and hands back the place after what it wrote, where the next step goes on.
#![tactic(auto)]

ghost use Rattle.std.specs.Prelude.{◌≡◌, [], ◌∷◌, ◌+◌, ◌*◌, ◌/◌, ◌%◌, ◌≤◌, ◌<◌, length};
ghost use Rattle.lists.specs.Inside.Stores.{Written};
ghost use Rattle.writing.specs.Image.{directory, together};
ghost use Rattle.writing.specs.Inside.Steps.{PartsAt, Numbers, parts_by, entry_bytes};

use layout::cursor;

// Where the next directory entry goes, and where the part that it is for begins.
#[derive(Clone, Copy, PartialEq, Eq, Debug)]
pub struct Place {
    pub at: usize,
    pub from: usize,
}

// Copies bytes.
pub fn copy(bytes: &[u8], out: &mut [u8], at: usize) -> usize
    requires { at + length bytes.now ≤ length out.old }
    ensures { Written out.old out.new at result bytes.now }
{
    let mut next = at;
    for k in 0..bytes.len() {
        out[next] = bytes[k];
        next += 1;
    }
    next
}

// Writes a two-byte number, the low byte first.
pub fn number(value: usize, out: &mut [u8], at: usize) -> usize
    requires value_bound { value < 65536 }
    requires at_in_bounds { at + 2 ≤ length out.old }
    ensures { Written out.old out.new at result (value % 256 ∷ value / 256 ∷ []) }
{
    out[at] = (value % 256) as u8;
    out[at + 1] = (value / 256) as u8;
    at + 2
}

// Writes a directory entry: where a part begins, and how long it is.
pub fn entry(from: usize, size: usize, out: &mut [u8], at: usize) -> usize
    requires from_bound { from < 65536 }
    requires size_bound { size < 65536 }
    requires at_in_bounds { at + 4 ≤ length out.old }
    ensures { Written out.old out.new at result (entry_bytes from size) }
{
    let next = number(from, out, at);
    number(size, out, next)
}

// Writes the directory entries of the rules' parts of an image in the order of some numbers, where the first of these parts
// begins at `start`.
pub fn entries(image: &[u8], order: &[u8], out: &mut [u8], at: usize, start: usize) -> Place
    requires parts_at { PartsAt image.now (length order.now) }
    requires numbers { Numbers order.now }
    requires rules_in_bounds { at + 4 * length order.now ≤ length out.old }
    requires order_bound { start + length (together (parts_by image.now order.now)) < 65536 }
    ensures written { Written out.old out.new at result.at (directory start (parts_by image.now order.now)) }
    ensures from_value { result.from ≡ start + length (together (parts_by image.now order.now)) }
{
    let mut next = at;
    let mut from = start;
    for number in order {
        let i = usize::from(*number);
        let span = cursor::locate(image, i);
        let size = span.to - span.from;
        next = entry(from, size, out, next);
        from += size;
    }
    Place { at: next, from }
}

// Copies these parts, in the same order.
pub fn parts(image: &[u8], order: &[u8], out: &mut [u8], at: usize) -> usize
    requires parts_at { PartsAt image.now (length order.now) }
    requires numbers { Numbers order.now }
    requires order_in_bounds { at + length (together (parts_by image.now order.now)) ≤ length out.old }
    ensures { Written out.old out.new at result (together (parts_by image.now order.now)) }
{
    let mut end = at;
    for number in order {
        let i = usize::from(*number);
        let part = cursor::locate(image, i);
        end = copy(&image[part.from..part.to], out, end);
    }
    end
}
