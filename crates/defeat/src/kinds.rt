// The kinds of defeaters, by document 01's numbers.
ghost use Rattle.std.specs.Prelude.{◌≡◌};
ghost use Rattle.defeat.specs.Inside.Kinds.{number_of};

#[derive(Clone, Copy, PartialEq, Eq, Debug)]
pub enum Kind {
    Proper = 1,
    Blocking = 2,
}

impl Kind {
    // The kind's number.
    pub fn number(self) -> u8
        ensures { result ≡ number_of self }
    {
        self as u8
    }
}
