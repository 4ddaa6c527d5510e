ghost use Rattle.std.specs.Prelude.{◌≡◌, ◌&&◌, pos, int_le, int_lt};

/// The least and the greatest number that are taken.
#[derive(Clone, Copy, PartialEq, Eq, Debug)]
pub struct Bounds {
    pub low: i128,
    pub high: i128,
}

impl Bounds {
    /// Whether the number is neither below the least nor above the greatest.
    pub(crate) fn contain(self, number: i128) -> bool
        ensures { result ≡ (int_le self.low number && int_le number self.high) }
    {
        (self.low..=self.high).contains(&number)
    }

    /// Whether numbers below 0 are taken.
    pub(crate) fn are_signed(self) -> bool
        ensures { result ≡ int_lt self.low (pos 0) }
    {
        self.low < 0
    }
}
