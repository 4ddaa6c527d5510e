ghost use Rattle.std.specs.Prelude.{◌≡◌, ◌+◌, ◌≤◌, true, length, take, drop};
ghost use Rattle.resp.specs.declared.case.Case.TheVariants.{VerbatimString};
ghost use Rattle.resp.specs.Cases.{case_of};
ghost use Rattle.resp.specs.Node.{erase};
ghost use Rattle.reply.specs.Parted.{format_of, integer_in, part_of, text_start, textual};
ghost use Rattle.reply.specs.Says.{Says};
ghost use Rattle.reply.specs.View.{node_of};

use crate::line::after_lf;
use crate::view::Reply;
use numerals::read_integer;
use resp::Case;

/// A part of the bytes.
#[derive(Clone, Copy, PartialEq, Eq, Debug)]
pub struct Part {
    pub start: usize,
    pub len: usize,
}

/// How far from a leaf's first byte its text begins.
fn text_start(leaf: &[u8]) -> usize
    ensures { result ≡ text_start leaf.now }
{
    match leaf {
        [b'$' | b'!', ..] => after_lf(leaf),
        [b'=', ..] => after_lf(leaf).saturating_add(4),
        _ => 1,
    }
}

/// Whether a reply of that case has a text.
fn has_text(case: Case) -> bool
    ensures { result ≡ textual case }
{
    match case {
        Case::Nil | Case::Array | Case::Set | Case::Push | Case::Map | Case::Attribute => false,
        _ => true,
    }
}

impl<'a> Reply<'a> {
    /// The text of a leaf that has one.
    fn leaf_part(self) -> Part
        requires { textual (case_of (erase (node_of self))) ≡ true }
        ensures { result ≡ part_of (node_of self.entry) }
    {
        let at = self.at;
        let start = at.saturating_add(text_start(&self.bytes[at..]));
        Part {
            start,
            len: self.end().saturating_sub(2).saturating_sub(start),
        }
    }

    /// Where the text of a leaf stands; of an integer its line; of what has no text no bytes at its place.
    pub fn text_part(self) -> Part
        ensures part { result ≡ part_of (node_of self.entry) }
        ensures says { Says (node_of self.entry) (take result.len (drop result.start self.entry.bytes.now)) }
        ensures inside { result.start + result.len ≤ length self.entry.bytes.now }
    {
        if has_text(self.case()) {
            return self.leaf_part();
        }
        Part {
            start: self.at,
            len: 0,
        }
    }

    /// The bytes of the text; of an integer its line; of what has no text no bytes.
    pub fn text(self) -> &'a [u8]
        ensures says { Says (node_of self.entry) result.now }
        ensures part { result.now ≡ take (part_of (node_of self.entry)).len (drop (part_of (node_of self.entry)).start self.entry.bytes.now) }
    {
        let Part { start, len } = self.text_part();
        &self.bytes[start..start + len]
    }

    /// Where the format of a verbatim string begins: right after its first line.
    fn format_start(self) -> usize
        requires { case_of (erase (node_of self)) ≡ VerbatimString }
        ensures inside { result + 3 ≤ length self.entry.bytes.now }
        ensures format { take 3 (drop result self.entry.bytes.now) ≡ format_of (node_of self.entry) }
    {
        let at = self.at;
        at.saturating_add(after_lf(&self.bytes[at..]))
    }

    /// The format of a verbatim string; of another reply no bytes.
    pub fn format(self) -> &'a [u8]
        ensures { result.now ≡ format_of (node_of self.entry) }
    {
        // kept: no option, since a reply without a format has one of no bytes
        match self.case() {
            Case::VerbatimString => {
                let start = self.format_start();
                &self.bytes[start..start + 3]
            }
            _ => &self.bytes[..0],
        }
    }

    /// The value of an integer; of another reply none.
    pub fn integer(self) -> Option<i64>
        ensures { result ≡ integer_in (node_of self.entry) }
    {
        match self.case() {
            Case::Int => read_integer(self.text()),
            _ => None,
        }
    }
}
