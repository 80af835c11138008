// The writer of the filed form and the way back: crate `filing` has their definitions and what is claimed of them.
#![tactic(auto)]

ghost use Rattle.std.specs.Prelude.{◌≡◌, ◌≤◌, length};
ghost use Rattle.std.proofs.lemmas.List.Edits.{sets};
ghost use Rattle.lists.specs.Inside.Numbering.{Numbering};
ghost use Rattle.layout.specs.Layout.{rules_of};
ghost use Rattle.layout.specs.Reading.{program_in};
ghost use Rattle.writing.specs.Image.{image_of};
ghost use Rattle.calls.specs.Verdicts.{told, Accepted};
ghost use Rattle.calls.specs.Outcomes.{outcome_of};
ghost use Rattle.calls.specs.Calls.{check_image};
ghost use Rattle.filing.specs.Filed.{ordered};
ghost use Rattle.filing.specs.Calls.{file_verdict, filed_by, file_table, file_numbers, unfiled_by, unfile_table};

use layout::{Cause, Refusal, cursor};

mod keys;
mod numbers;
mod order;
mod pairs;

// The filed form of an image in one lent table and the old number of each filed rule in the other: its length, or the first of
// causes 1 to 14, 24 and 25 that applies.
pub fn file(image: &[u8], out: &mut [u8], numbers: &mut [u8]) -> Result<u32, Refusal>
    ensures { (outcome_of result ≡ filed_by image.now (length out.old) (length numbers.old)) × (out.new ≡ file_table image.now out.old (length numbers.old)) × (numbers.new ≡ file_numbers image.now (length out.old) numbers.old) }
{
    admit(image, out.len(), numbers.len())?;
    let rules = cursor::number_at(image, 2) as usize;
    let order = &mut numbers[..rules];
    order::fill(image, order);
    write(image, order, out);
    Ok(image.len() as u32)
}

// A filed image with its rules back under their old numbers, in the lent table: its length, or the first of causes 1 to 14 and
// 24 to 26 that applies.
pub fn unfile(image: &[u8], numbers: &[u8], out: &mut [u8]) -> Result<u32, Refusal>
    ensures { (outcome_of result ≡ unfiled_by image.now numbers.now (length out.old)) × (out.new ≡ unfile_table image.now numbers.now out.old) }
{
    admit(image, out.len(), numbers.len())?;
    let rules = cursor::number_at(image, 2) as usize;
    let mut places = [255u8; 96];
    if !numbers::invert(&numbers[..rules], &mut places) {
        return Err(Cause::Misfiled.at(0));
    }
    if !order::ascends(image, rules) {
        return Err(Cause::Misfiled.at(0));
    }
    write(image, &places[..rules], out);
    Ok(image.len() as u32)
}

// The first of causes 1 to 14, 24 and 25 that applies to an image, with tables of so many bytes and numbers.
fn admit(image: &[u8], room: usize, entries: usize) -> Result<(), Refusal>
    ensures { told result ≡ file_verdict image.now room entries }
{
    calls::check(image)?;
    if room < image.len() {
        return Err(Cause::OutputTable.at(0));
    }
    if entries < cursor::number_at(image, 2) as usize {
        return Err(Cause::NumberTable.at(0));
    }
    Ok(())
}

// Writes an accepted image with its rules in another order. What it writes is as long as the image.
fn write(image: &[u8], order: &[u8], out: &mut [u8])
    requires { (check_image image.now ≡ Accepted) × (Numbering (rules_of image.now) order.now) × (length image.now ≤ length out.old) }
    ensures { out.new ≡ sets out.old 0 (image_of (ordered (program_in image.now) order.now)) }
{
    let count = cursor::number_at(image, 4) as usize;
    let header = writing::copy(&image[0..8], out, 0);
    let place = writing::entries(image, order, out, header, 12 + 4 * order.len());
    let directory = writing::entry(place.from, 2 * count, out, place.at);
    let next = writing::parts(image, order, out, directory);
    pairs::write(image, count, order, out, next);
}
