ghost use Rattle.std.specs.Prelude.{◌≡◌, ◌^◌, ◌<◌, false};
ghost use Rattle.reply.specs.Opened.{Opened, Spread, row_from, row_of, singles};
ghost use Rattle.reply.specs.Parts.{is_attribute};
ghost use Rattle.reply.specs.View.{node_of};

use crate::pass::{Passed, pass};
use crate::view::{Items, Reply};
use resp::Case;

/// Where a row of replies or of pairs begins, and how many there are.
// kept: beside `Items`, which can be made only of what is known to be whole
#[derive(Clone, Copy, PartialEq, Eq, Debug)]
pub struct Row {
    pub at: usize,
    pub left: usize,
    pub pairs: bool,
}

/// The row right below a reply of that case, which has so many replies below it from `at` on.
fn row_from(case: Case, at: usize, items: usize) -> Row
    ensures { result ≡ row_from case at items }
{
    match case {
        Case::Array | Case::Set | Case::Push => Row {
            at,
            left: items,
            pairs: false,
        },
        Case::Map | Case::Attribute => Row {
            at,
            left: items / 2,
            pairs: true,
        },
        _ => Row {
            at,
            left: 0,
            pairs: false,
        },
    }
}

/// How many replies a row of so many is: a pair is two.
pub(crate) fn singles(left: usize, pairs: bool) -> usize
    requires { singles pairs left < 2 ^ 64 }
    ensures { result ≡ singles pairs left }
{
    if pairs { 2 * left } else { left }
}

impl<'a> Reply<'a> {
    /// What stands right below a reply that is no pair.
    pub(crate) fn below(self) -> Items<'a>
        requires { self.pair ≡ false }
        ensures opened { Opened self.entry.bytes.now self.entry.at (row_of result) }
        ensures spread { Spread self.entry.bytes.now self.entry.at (row_of result) }
        ensures bytes { result.bytes ≡ self.entry.bytes }
    {
        let start = self.at;
        let Passed { len, items } = pass(&self.bytes[start..]);
        let Row { at, left, pairs } = row_from(self.case(), start.saturating_add(len), items);
        Items {
            bytes: self.bytes,
            at,
            left,
            pairs,
        }
    }

    /// Whether it is an attribute.
    pub(crate) fn is_attribute(self) -> bool
        ensures { result ≡ is_attribute (node_of self.entry) }
    {
        matches!(self.case(), Case::Attribute)
    }
}
