// An argument's number, M × 128 + h, taken apart.
ghost use Rattle.std.specs.Prelude.{◌≡◌, ◌<◌};
ghost use Rattle.argument.specs.Argument.{mask_of, literal_of};

pub fn mask_of(x: u32) -> u64
    ensures { result ≡ mask_of x }
{
    x as u64 / 128
}

pub fn literal_of(x: u32) -> u64
    ensures { (result ≡ literal_of x) × (result < 128) }
{
    x as u64 % 128
}
