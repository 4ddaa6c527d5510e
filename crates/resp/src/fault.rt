ghost use Rattle.std.specs.Prelude.{◌≡◌, Some};
ghost use Rattle.resp.specs.Answer.{number, words};

use std::fmt;

/// Why no whole reply is read, by number.
#[derive(Clone, Copy, PartialEq, Eq, Debug)]
pub enum WireReason {
    /// The bytes end before the reply does.
    NotWhole = 10,
    /// The first character names no kind.
    UnknownKind = 11,
    /// An LF, or a CR that no LF follows, inside a line.
    BrokenLine = 12,
    /// More than 1,024 bytes of line.
    LongLine = 13,
    /// The content isn't what the kind asks for.
    Content = 14,
    /// A length or a count over its limit, or too many levels.
    Limit = 15,
    /// No CR LF after a body.
    NotClosed = 16,
    /// Text that is not UTF-8.
    NotUtf8 = 17,
}

/// A refusal of the wire: why, and at which byte.
#[derive(Clone, Copy, PartialEq, Eq, Debug)]
pub struct WireFault {
    pub reason: WireReason,
    pub place: usize,
}

impl WireReason {
    /// The number of the reason.
    pub fn number(self) -> u8
        ensures { result ≡ number self }
    {
        self as u8
    }

    /// What the reason says, in a few words.
    pub fn name(self) -> &'static str
        ensures { result.now ≡ words self }
    {
        match self {
            WireReason::NotWhole => "not whole yet",
            WireReason::UnknownKind => "unknown kind",
            WireReason::BrokenLine => "broken line",
            WireReason::LongLine => "long line",
            WireReason::Content => "content",
            WireReason::Limit => "limit or depth",
            WireReason::NotClosed => "body not closed",
            WireReason::NotUtf8 => "not UTF-8",
        }
    }

    /// The refusal for that reason, at a place.
    pub(crate) fn at(self, place: usize) -> WireFault
        ensures { result ≡ record { reason = self; place = place } }
    {
        WireFault {
            reason: self,
            place,
        }
    }
}

/// A reason is written as its name.
impl fmt::Display for WireReason {
    ghost output = { λ reason. Some (words reason) };

    fn fmt<W: fmt::Write>(&self, f: &mut fmt::Formatter<W>) -> fmt::Result {
        f.write_str(self.name())
    }
}
