ghost use Rattle.std.specs.Prelude.{◌≡◌, ◌+◌, ◌-◌, ◌≤◌, length, drop};
ghost use Rattle.resp.specs.Reading.{body, text};
ghost use Rattle.resp.specs.Told.{Ends, Lines, Told, body_end, held, left_after};

use crate::closed::Closed;
use crate::fault::{WireFault, WireReason};
use utf8::ill_formed;

// kept: bytes and a place, here and in `body`, since a body may begin where the bytes end, and then has no item
/// Where the body of `n` bytes at `from` ends, once all of it is there: the place of its CR LF.
fn body_end(bytes: &[u8], from: usize, n: u32) -> Result<usize, WireFault>
    requires { from ≤ length bytes.now }
    ensures { result ≡ body_end bytes.now from n }
{
    let n = n as usize;
    if bytes.len() - from < n + 2 {
        return Err(WireReason::NotWhole.at(bytes.len()));
    }
    let end = from + n;
    if bytes[end..].starts_with(b"\r\n") {
        Ok(end)
    } else {
        Err(WireReason::NotClosed.at(end))
    }
}

/// The body of `n` bytes at `from`.
pub(crate) fn body(bytes: &[u8], from: usize, n: u32) -> Result<Closed<'_>, WireFault>
    requires { from ≤ length bytes.now }
    ensures { Told (Lines bytes.now) bytes.now (body n (drop from bytes.now)) result }
{
    let end = body_end(bytes, from, n)?;
    Ok(Closed { bytes, from, end })
}

impl<'a> Closed<'a> {
    /// The content itself, without its CR LF.
    pub(crate) fn held(self) -> &'a [u8]
        ensures { result.now ≡ held self.entry }
    {
        &self.bytes[self.from..self.end]
    }

    /// The place after the CR LF.
    pub(crate) fn after(self) -> usize
        ensures { result ≡ self.entry.end + 2 }
    {
        self.end + 2
    }

    /// The same, if the content is UTF-8.
    #[inline]
    pub(crate) fn text_end(self) -> Result<usize, WireFault>
        ensures { Told (Ends self.entry.bytes.now) self.entry.bytes.now (text (held self.entry) (left_after self.entry)) result }
    {
        // kept: the place is what there is where it is refused, so that `ok_or` would be the other way round
        match ill_formed(self.held()) {
            None => Ok(self.after()),
            Some(i) => Err(WireReason::NotUtf8.at(self.from + i)),
        }
    }
}
