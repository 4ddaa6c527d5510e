//! The report of a recording, in plain words.

ghost use Rattle.std.specs.Prelude.{◌≡◌, ℕ, ◌+◌, ◌^◌, ◌<◌, drop, IfOk, Some, Ok};
ghost use Rattle.resp.specs.Answer.{answer};
ghost use Rattle.station.specs.Listing.{Listed};
ghost use Rattle.station.specs.Surveyed.{Surveyed};

use crate::listing::{Note, note_reply};
use crate::survey::Survey;
use resp::{Case, WireFault, walk};
use std::fmt;

/// Some bytes of a text: printable ASCII as it is, any other byte as its two hexadecimal digits after `\x`.
#[derive(Clone, Copy)]
struct Shown<'a>(&'a [u8]);

/// As many bytes as are shown of one text.
const SHOWN_MOST: usize = 60;

impl fmt::Display for Shown<'_> {
    fn fmt<W: fmt::Write>(&self, f: &mut fmt::Formatter<W>) -> fmt::Result {
        for byte in self.0.iter().take(SHOWN_MOST) {
            if *byte >= b' ' && *byte <= b'~' && *byte != b'\\' {
                let letter = char::from(*byte);
                write!(f, "{letter}")?;
            } else {
                let code = *byte;
                write!(f, "\\x{code:02x}")?;
            }
        }
        if self.0.len() > SHOWN_MOST {
            return write!(f, "..");
        }
        Ok(())
    }
}

/// A case, with the count of what it holds.
#[derive(Clone, Copy)]
struct Words {
    case: Case,
    items: usize,
}

impl fmt::Display for Words {
    fn fmt<W: fmt::Write>(&self, f: &mut fmt::Formatter<W>) -> fmt::Result {
        let items = self.items;
        let pairs = self.items / 2;
        match self.case {
            Case::Nil => write!(f, "nil"),
            Case::Int => write!(f, "integer"),
            Case::BulkString => write!(f, "bulk string"),
            Case::Array => write!(f, "array, items: {items}"),
            Case::SimpleString => write!(f, "simple string"),
            Case::Okay => write!(f, "okay"),
            Case::Map => write!(f, "map, pairs: {pairs}"),
            Case::Attribute => write!(f, "attribute, pairs: {pairs}, then its data"),
            Case::Set => write!(f, "set, members: {items}"),
            Case::Double => write!(f, "double"),
            Case::Boolean => write!(f, "boolean"),
            Case::VerbatimString => write!(f, "verbatim string"),
            Case::BigNumber => write!(f, "big number"),
            Case::Push => write!(f, "push, items: {items}"),
            Case::ServerError => write!(f, "error"),
        }
    }
}

/// Blanks in front of an item.
#[derive(Clone, Copy)]
struct Indent(usize);

impl fmt::Display for Indent {
    fn fmt<W: fmt::Write>(&self, f: &mut fmt::Formatter<W>) -> fmt::Result {
        for _level in 0..self.0 {
            write!(f, "  ")?;
        }
        Ok(())
    }
}

/// Where the second line of a reply starts, or 1 past its first byte if it has none that counts.
fn content_start(reply: &[u8]) -> usize {
    match reply {
        [b'$' | b'!' | b'=', ..] => {
            let lf = reply.iter().position(|byte| *byte == b'\n');
            lf.map_or(reply.len(), |place| place + 1)
        }
        _ => 1,
    }
}

/// What a leaf says: the content of its line, or its body.
// kept: not a view's text, which leaves out the format of a verbatim string
fn content(reply: &[u8]) -> &[u8] {
    let end = reply.len().saturating_sub(2);
    reply.get(content_start(reply)..end).unwrap_or_default()
}

/// Whether a reply of that case is listed with what it says.
fn has_content(case: Case) -> bool {
    !matches!(
        case,
        Case::Nil | Case::Okay | Case::Array | Case::Set | Case::Map | Case::Push | Case::Attribute
    )
}

/// One line of the report for each note.
fn print_note(rt: &HostRuntime, bytes: &[u8], note: &Note) -> anyhow::Result<()> {
    let at = note.at;
    let length = note.end.saturating_sub(note.at);
    let indent = Indent(note.level);
    let words = Words {
        case: note.case,
        items: note.items,
    };
    match bytes.get(note.at..note.end) {
        Some(reply) if has_content(note.case) => {
            let text = Shown(content(reply));
            println!(rt; "{indent}at {at}, {length} bytes: {words} {text}")?;
        }
        _ => println!(rt; "{indent}at {at}, {length} bytes: {words}")?,
    }
    Ok(())
}

/// The lines of one whole reply, which are those of its notes.
// kept: bytes and a place, as for the notes
fn print_reply(
    rt: &HostRuntime,
    bytes: &[u8],
    at: usize,
    number: u64,
    notes: &mut Vec<Note>,
) -> anyhow::Result<()>
    ensures { IfOk result (λ _. (n : ℕ) → answer (drop at bytes.now) ≡ Ok n → Listed bytes.now at n notes.new.items) }
{
    notes.clear();
    let listed = note_reply(bytes, at, 0, notes);
    println!(rt; "reply {number}")?;
    for note in notes.iter() {
        print_note(rt, bytes, note)?;
    }
    listed?;
    Ok(())
}

/// Where the bytes from `at` on begin with no whole reply: the fault, with its place in the recording.
fn stopped(replies: u64, at: usize, fault: WireFault) -> Survey
    requires { at + fault.place < 2 ^ 64 }
    ensures { result ≡ record { replies = replies; bytes = at; fault = Some (record fault { place = at + fault.place }) } }
{
    Survey {
        replies,
        bytes: at,
        fault: Some(WireFault {
            place: at + fault.place,
            ..fault
        }),
    }
}

/// Lists the whole replies of a recording, to its end or its first fault.
pub fn recording(rt: &HostRuntime, bytes: &[u8]) -> anyhow::Result<Survey>
    ensures { IfOk result (λ s. Surveyed bytes.now s) }
{
    let mut notes = Vec::new(rt.alloc());
    let mut at = 0;
    let mut replies = 0u64;
    // kept: an iterator of whole replies would have to say its step as a relation, and hold the fault that ends it
    while at < bytes.len() {
        match walk(&bytes[at..]) {
            Ok(length) => {
                replies = replies.saturating_add(1);
                print_reply(rt, bytes, at, replies, &mut notes)?;
                at += length;
            }
            Err(fault) => return Ok(stopped(replies, at, fault)),
        }
    }
    Ok(Survey {
        replies,
        bytes: at,
        fault: None,
    })
}
