// Rules by their numbers in another order.
ghost use Rattle.std.specs.Prelude.{◌≡◌, true, not, ℕ, ◌≤◌, ◌<◌, length, get_or};
ghost use Rattle.filing.specs.Calls.{bad_numbers};

// Whether some numbers are those below their count, each once; if so, the place of each of them. A place of 255 is none yet.
pub fn invert(numbers: &[u8], places: &mut [u8]) -> bool
    requires { (length numbers.now ≤ length places.old) × (length numbers.now ≤ 255) × ((k : ℕ) → k < length numbers.now → get_or places.old k 0 ≡ 255) }
    ensures { (result ≡ not (bad_numbers (length numbers.now) numbers.now)) × (result ≡ true → (i : ℕ) → i < length numbers.now → get_or places.new (get_or numbers.now i 0) 0 ≡ i) }
{
    for (i, number) in numbers.iter().enumerate() {
        let number = usize::from(*number);
        if number >= numbers.len() {
            return false;
        }
        if places[number] != 255 {
            return false;
        }
        places[number] = i as u8;
    }
    true
}
