// The words of a row: their numbers are within one number, the row's span.
ghost use Rattle.std.specs.Prelude.{◌≡◌, ◌+◌, ◌^◌, ◌<◌, MatchOption};
ghost use Rattle.std.specs.Iterator.{at_most};
ghost use Rattle.rows.specs.Span.{Bounds, Greatest};

// The words that are still to come: those below `end`.
#[derive(Clone, Copy)]
pub struct Descending {
    span: u64,
    end: u64,
    ghost bounds: { Bounds span end },
}

// The words within a span, descending.
pub fn words(span: u64) -> Descending
    requires { span + 1 < 2 ^ 64 }
    ensures { (result.span ≡ span) × (result.end ≡ span + 1) }
{
    Descending {
        span,
        end: span + 1,
    }
}

impl Iterator for Descending {
    type Item = u64;

    ghost next_gives = { λ s r t. MatchOption r (s.end ≡ 0) (λ w. Greatest s.span s.end w × (t.end ≡ w) × (t.span ≡ s.span)) };

    ghost remaining = { λ s. at_most s.end };

    fn next(&mut self) -> Option<u64> {
        if self.end == 0 {
            return None;
        }
        self.end = (self.end - 1) & self.span;
        Some(self.end)
    }
}
