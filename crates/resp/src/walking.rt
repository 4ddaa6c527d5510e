ghost use Rattle.std.specs.Prelude.{◌≡◌, ◌+◌, ◌<◌, length, drop};
ghost use Rattle.resp.specs.Answer.{Right, answer};
ghost use Rattle.resp.specs.Node.{offset, reading};
ghost use Rattle.resp.specs.Told.{Ends, Opens, Told, named_end, opened, opening_from, starts_string};

use crate::fault::{WireFault, WireReason};
use crate::item::Item;
use crate::kind::kind_of;
use crate::limits::DEEPEST;
use crate::opening::Opening;

/// The item at `at` up to its parts, where so many levels are left.
// kept: bytes and a place, here and below, since the place may be past the last byte, where no item is, and a struct of the two
// without that would say no more
pub(crate) fn open_at(bytes: &[u8], at: usize, depth_left: usize) -> Result<Opening, WireFault>
    ensures { Told (Opens bytes.now) bytes.now (opening_from depth_left bytes.now at) result }
{
    if at >= bytes.len() {
        return Err(WireReason::NotWhole.at(bytes.len()));
    }
    if depth_left == 0 {
        return Err(WireReason::Limit.at(at));
    }
    let kind = kind_of(bytes[at]).ok_or(WireReason::UnknownKind.at(at))?;
    Item { bytes, at }.head_of(kind)
}

/// The item that begins the bytes, up to its parts.
pub fn open_item(bytes: &[u8]) -> Result<Opening, WireFault>
    ensures { result ≡ opened bytes.now }
{
    open_at(bytes, 0, DEEPEST)
}

/// Whether a reply, which has been read, is a simple or bulk string.
fn is_string(reply: &[u8]) -> bool
    ensures { result ≡ starts_string reply.now }
{
    // kept: no plainer by `case_of`, since three of its cases are strings, and it may be none
    match reply {
        [b'+', ..] => true,
        [b'$', next, ..] => *next != b'-',
        _ => false,
    }
}

/// Whether the reply at `at`, which has been read, is a string.
fn is_string_at(bytes: &[u8], at: usize) -> bool
    ensures { result ≡ starts_string (drop at bytes.now) }
{
    bytes.get(at..).is_some_and(is_string)
}

/// The end of a push's first item, which is at `at` and has been read: it has to be a string.
fn named_end(bytes: &[u8], at: usize, end: usize) -> Result<usize, WireFault>
    ensures { result ≡ named_end (starts_string (drop at bytes.now)) at end }
{
    if is_string_at(bytes, at) {
        Ok(end)
    } else {
        Err(WireReason::Content.at(at))
    }
}

/// Where the reply at `at` ends, if it is whole and has no more than so many levels.
pub(crate) fn walk_at(bytes: &[u8], at: usize, depth_left: usize) -> Result<usize, WireFault>
    ensures { Told (Ends bytes.now) bytes.now (reading (offset (length bytes.now)) depth_left (drop at bytes.now)) result }
{
    let Opening {
        items,
        named,
        start,
    } = open_at(bytes, at, depth_left)?;
    let mut end = start;
    let mut left = items;
    if named {
        let first = walk_at(bytes, start, depth_left - 1)?;
        end = named_end(bytes, start, first)?;
        left = items - 1;
    }
    for _item in 0..left {
        end = walk_at(bytes, end, depth_left - 1)?;
    }
    Ok(end)
}

/// The length of the whole reply that begins the bytes; or why none does, and where.
pub fn walk(bytes: &[u8]) -> Result<usize, WireFault>
    ensures answer { result ≡ answer bytes.now }
    ensures right { Right bytes.now result }
{
    walk_at(bytes, 0, DEEPEST)
}
