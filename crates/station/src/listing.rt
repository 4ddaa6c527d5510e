//! A reply and the items in it, in the order of the wire, each with its place.

ghost use Rattle.std.specs.Prelude.{◌≡◌, List, ℕ, Some};
ghost use Rattle.resp.specs.Node.{Node};
ghost use Rattle.resp.specs.Out.{ok};
ghost use Rattle.station.specs.declared.listing.Stop.TheVariants.{Memory, Wire};
ghost use Rattle.station.specs.Listing.{Noted, end_at, tree_at};
ghost use Rattle.station.specs.Shown.{shown_stop};

use resp::{Case, Opening, WireFault, case_of, open_item};
use std::alloc::{AllocError, AllocFailed};
use std::error::Error;
use std::fmt;

/// One reply, at any level. The outermost is at level 0.
#[derive(Clone, Copy, PartialEq, Eq, Debug)]
pub struct Note {
    pub at: usize,
    pub end: usize,
    pub level: usize,
    pub items: usize,
    pub case: Case,
}

/// Why a listing stops.
#[derive(Clone, Copy, PartialEq, Eq, Debug)]
pub enum Stop {
    Wire(WireFault),
    Memory,
    Deep,
}

impl fmt::Display for Stop {
    ghost output = { λ why. Some (shown_stop why) };

    fn fmt<W: fmt::Write>(&self, f: &mut fmt::Formatter<W>) -> fmt::Result {
        let words = match self {
            Stop::Wire(_) => "no whole reply to list",
            Stop::Memory => "no memory to list the items of this reply",
            Stop::Deep => "too many levels to list",
        };
        f.write_str(words)
    }
}

impl Error for Stop {}

impl From<WireFault> for Stop {
    ghost from_gives = { λ f r. r ≡ Wire f };

    fn from(fault: WireFault) -> Stop {
        Stop::Wire(fault)
    }
}

impl From<AllocError> for Stop {
    ghost from_gives = { λ _ r. r ≡ Memory };

    fn from(_error: AllocError) -> Stop {
        Stop::Memory
    }
}

impl<T: Drop> From<AllocFailed<T>> for Stop {
    ghost from_gives = { λ _ r. r ≡ Memory };

    fn from(_refused: AllocFailed<T>) -> Stop {
        Stop::Memory
    }
}

/// Sets where the reply of a note ends.
fn set_end(notes: &mut Vec<Note>, index: usize, end: usize)
    ensures { notes.new.items ≡ end_at index end notes.old.items }
{
    if let Some(note) = notes.get_mut(index) {
        note.end = end;
    }
}

/// Notes the reply at `at` and what it holds, and answers where it ends.
// kept: bytes and a place, since notes say places in all the bytes; a note's end is written once its parts are
// noted, since the note comes before theirs
pub fn note_reply(
    bytes: &[u8],
    at: usize,
    level: usize,
    notes: &mut Vec<Note>,
) -> Result<usize, Stop>
    ensures { (t : Node) (rest : List ℕ) → tree_at bytes.now at level ≡ ok t rest → Noted bytes.now level t rest notes.old.items notes.new.items result }
{
    if at >= bytes.len() || level >= resp::DEEPEST {
        return Err(Stop::Deep);
    }
    let reply = &bytes[at..];
    let Opening {
        items,
        named: _,
        start,
    } = open_item(reply)?;
    let case = case_of(reply).ok_or(Stop::Deep)?;
    let index = notes.len();
    notes.push(Note {
        at,
        end: at,
        level,
        items,
        case,
    })?;
    let mut end = at.saturating_add(start);
    for _item in 0..items {
        end = note_reply(bytes, end, level + 1, notes)?;
    }
    set_end(notes, index, end);
    Ok(end)
}
