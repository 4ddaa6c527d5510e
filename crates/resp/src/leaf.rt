ghost use Rattle.std.specs.Prelude.{◌≡◌, is_some};
ghost use Rattle.resp.specs.Limits.{length_most};
ghost use Rattle.resp.specs.Out.{and_then};
ghost use Rattle.resp.specs.Reading.{body, boolean_leaf, bulk, is_verbatim, leaf_of, lined, size as sized, size_or_null, text, text_line, verbatim};
ghost use Rattle.resp.specs.Told.{Ends, Lines, Tells};

use crate::body::body;
use crate::closed::Closed;
use crate::fault::{WireFault, WireReason};
use crate::item::Item;
use crate::kind::Kind;
use crate::limits::LENGTH_MOST;
use crate::opening::Size;
use numerals::{is_big_number, is_double, read_integer};

/// Whether a line's content is one of its kind's.
// kept: by a test that is handed in, `content_line` would speak of what the test answers, and each kind have to show it
fn fits(kind: Kind, content: &[u8]) -> bool
    ensures { result ≡ is_some (leaf_of kind content.now) }
{
    match kind {
        Kind::Integer => read_integer(content).is_some(),
        Kind::Null => content.is_empty(),
        Kind::Boolean => is_flag(content),
        Kind::Double => is_double(content),
        Kind::BigNumber => is_big_number(content),
        _ => false,
    }
}

/// `t` or `f`.
fn is_flag(content: &[u8]) -> bool
    ensures { result ≡ is_some (boolean_leaf content.now) }
{
    matches!(content, b"t" | b"f")
}

/// Whether a verbatim string's body has a format: at least four bytes, the fourth a colon.
fn has_format(content: &[u8]) -> bool
    ensures { result ≡ is_verbatim content.now }
{
    matches!(content, [_, _, _, b':', ..])
}

impl<'a> Item<'a> {
    /// Where an item that is a line of its kind ends.
    pub(crate) fn content_line(self, kind: Kind) -> Result<usize, WireFault>
        ensures { Tells Ends (lined (leaf_of kind)) self.entry result }
    {
        let line = self.line()?;
        if fits(kind, line.held()) {
            Ok(line.after())
        } else {
            Err(WireReason::Content.at(self.at))
        }
    }

    /// Where an item that is a line of text ends.
    pub(crate) fn text_line(self) -> Result<usize, WireFault>
        ensures { Tells Ends text_line self.entry result }
    {
        self.line()?.text_end()
    }

    /// The body of the length that the item tells.
    #[inline]
    fn sized_body(self) -> Result<Closed<'a>, WireFault>
        ensures { Tells Lines (λ s bs. and_then (sized length_most s bs) body) self.entry result }
    {
        let Size { count, start } = self.size(LENGTH_MOST)?;
        body(self.bytes, start, count)
    }

    /// Where a bulk string ends.
    pub(crate) fn bulk_string(self) -> Result<usize, WireFault>
        ensures { Tells Ends (λ s bs. and_then (size_or_null length_most s bs) bulk) self.entry result }
    {
        let Size { count, start } = self.size_or_null(LENGTH_MOST)?;
        let Some(count) = count else {
            return Ok(start);
        };
        Ok(body(self.bytes, start, count)?.after())
    }

    /// Where a bulk error ends.
    pub(crate) fn bulk_error(self) -> Result<usize, WireFault>
        ensures { Tells Ends (λ s bs. and_then (sized length_most s bs) (λ n more. and_then (body n more) text)) self.entry result }
    {
        self.sized_body()?.text_end()
    }

    /// Where a verbatim string ends.
    pub(crate) fn verbatim_string(self) -> Result<usize, WireFault>
        ensures { Tells Ends (λ s bs. and_then (sized length_most s bs) (λ n more. and_then (body n more) (verbatim s))) self.entry result }
    {
        let body = self.sized_body()?;
        if has_format(body.held()) {
            body.text_end()
        } else {
            Err(WireReason::Content.at(self.at))
        }
    }
}
