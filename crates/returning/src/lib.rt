// An image filed and brought back. No program needs it: it shows that what the two calls promise is enough.
#![tactic(auto)]

ghost use Rattle.std.specs.Prelude.{◌≡◌, length};
ghost use Rattle.lists.specs.Lists.{choose};
ghost use Rattle.calls.specs.Calls.{front};
ghost use Rattle.filing.specs.Calls.{file_table, file_numbers};
ghost use Rattle.returning.specs.Returning.{comes_back};

// Files an image into two lent tables, and writes what is there back into a third: whether both could be done. If so, the third
// table begins with the image's own bytes.
pub fn there_and_back(image: &[u8], form: &mut [u8], numbers: &mut [u8], back: &mut [u8]) -> bool
    ensures { (result ≡ comes_back image.now (length form.old) (length numbers.old) (length back.old)) × (back.new ≡ choose result (front image.now back.old) back.old) × (form.new ≡ file_table image.now form.old (length numbers.old)) × (numbers.new ≡ file_numbers image.now (length form.old) numbers.old) }
{
    if filer::file(image, form, numbers).is_err() {
        return false;
    }
    let length = image.len();
    filer::unfile(&form[..length], numbers, back).is_ok()
}
