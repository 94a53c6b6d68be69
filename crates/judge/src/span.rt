// The least and the greatest of some numbers.
ghost use Rattle.std.specs.Prelude.{◌≡◌};
ghost use Rattle.std.specs.Int.{int_min, int_max};

#[derive(Clone, Copy)]
pub(crate) struct Span {
    pub(crate) least: i64,
    pub(crate) greatest: i64,
}

impl Span {
    pub(crate) fn join(self, other: Span) -> Span
        ensures least { result.least ≡ int_min self.least other.least }
        ensures greatest { result.greatest ≡ int_max self.greatest other.greatest }
    {
        Span {
            least: self.least.min(other.least),
            greatest: self.greatest.max(other.greatest),
        }
    }
}
