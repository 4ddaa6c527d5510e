ghost use Rattle.std.specs.Prelude.{◌≡◌, ◌≤◌, true, false, length};
ghost use Rattle.reply.specs.Tree.{Ended, RowEnded, wholly_row};

use crate::open::singles;
use crate::pass::{Passed, pass};
use crate::view::{Items, Reply};

// kept: bytes and a place, since a row of pairs is passed as one of single replies, of which a view would first have to be made
/// Where so many whole replies, one after another, end. It passes item after item, and looks at no text.
fn replies_end(bytes: &[u8], at: usize, replies: usize) -> usize
    ensures { at ≤ length bytes.now → wholly_row bytes.now false at replies ≡ true → RowEnded bytes.now false at replies result }
{
    let mut end = at;
    let mut left = replies;
    // kept: each item may add to what is left, so that no range and no iterator knows how many come
    while left > 0 {
        if end >= bytes.len() {
            return end;
        }
        let Passed { len, items } = pass(&bytes[end..]);
        end += len;
        left = (left - 1).saturating_add(items);
    }
    end
}

impl<'a> Items<'a> {
    /// Where the last of them ends.
    pub(crate) fn end(self) -> usize
        ensures { RowEnded self.entry.bytes.now self.entry.pairs self.entry.at self.entry.left result }
    {
        replies_end(self.bytes, self.at, singles(self.left, self.pairs))
    }
}

impl<'a> Reply<'a> {
    /// Where the view ends.
    pub(crate) fn end(self) -> usize
        ensures { Ended self.entry.bytes.now self.entry.pair self.entry.at result }
    {
        replies_end(self.bytes, self.at, singles(1, self.pair))
    }
}
