// The cursor over the image or one of its parts: each step hands back what it read with the next cursor, or none, since the
// bytes end first or a part does not follow.
ghost use Rattle.std.specs.Prelude.{◌≡◌, ◌+◌, length, ◌≤◌};
ghost use Rattle.layout.specs.Layout.{number_at};
ghost use Rattle.layout.specs.Inside.Steps.{byte_from, pair_from, number_from, numbers_from, follow_from, PartAt, Located};

// A position in the bytes.
#[derive(Clone, Copy, PartialEq, Eq, Debug)]
pub struct Cursor {
    pub at: usize,
}

// Where a part lies in the image.
#[derive(Clone, Copy, PartialEq, Eq, Debug)]
pub struct Span {
    pub from: usize,
    pub to: usize,
}

// The two-byte number at a place that has one, the low byte first.
pub fn number_at(image: &[u8], at: usize) -> u16
    requires { at + 2 ≤ length image.now }
    ensures { result ≡ number_at image.now at }
{
    u16::from(image[at]) + 256 * u16::from(image[at + 1])
}

// Part i of an image that has it, for those who look a part up by its number.
pub fn locate(image: &[u8], i: usize) -> Span
    requires { PartAt image.now i }
    ensures { Located image.now i result.from result.to }
{
    let entry = 8 + 4 * i;
    let from = usize::from(number_at(image, entry));
    let size = usize::from(number_at(image, entry + 2));
    Span {
        from,
        to: from + size,
    }
}

impl Cursor {
    // The first byte.
    pub fn start() -> Self
        ensures { result.at ≡ 0 }
    {
        Cursor { at: 0 }
    }

    // The byte here.
    pub fn byte(self, part: &[u8]) -> Option<(u8, Cursor)>
        ensures { result ≡ byte_from part.now self.at }
    {
        let value = *part.get(self.at)?;
        Some((value, Cursor { at: self.at + 1 }))
    }

    // The two bytes here, one after the other: a rule's kind and head, or the two rule numbers of a preference pair.
    pub fn pair(self, part: &[u8]) -> Option<(u8, u8, Cursor)>
        ensures { result ≡ pair_from part.now self.at }
    {
        let (first, middle) = self.byte(part)?;
        let (second, next) = middle.byte(part)?;
        Some((first, second, next))
    }

    // The two-byte number here.
    pub fn number(self, image: &[u8]) -> Option<(u16, Cursor)>
        ensures { result ≡ number_from image.now self.at }
    {
        let (_, _, next) = self.pair(image)?;
        Some((number_at(image, self.at), next))
    }

    // The two numbers here, one after the other: two counts, or where a part starts and how long it is.
    pub fn numbers(self, image: &[u8]) -> Option<(u16, u16, Cursor)>
        ensures { result ≡ numbers_from image.now self.at }
    {
        let (first, middle) = self.number(image)?;
        let (second, next) = middle.number(image)?;
        Some((first, second, next))
    }

    // The end of the part of the directory entry here, which has to begin where the one before it ends and to lie within the
    // image.
    pub fn follow(self, image: &[u8], ends: usize) -> Option<(usize, Cursor)>
        ensures { result ≡ follow_from image.now self.at ends }
    {
        let (offset, size, next) = self.numbers(image)?;
        let from = usize::from(offset);
        if from != ends {
            return None;
        }
        let to = from + usize::from(size);
        if image.len() < to {
            return None;
        }
        Some((to, next))
    }
}
