ghost use Rattle.std.specs.Prelude.{◌≡◌};
ghost use Rattle.collections.specs.declared.cursor.Cursor.TheVariants.{Distinct, Each};
ghost use Rattle.collections.specs.Steps.{size};

use reply::{Items, Spot};

/// Replies that are cut, several to a row, of which the first begins at a place.
#[derive(Clone, Copy)]
pub struct Cuts<'a> {
    pub first: Spot,
    pub replies: Classes<'a>,
}

/// All replies, and what is left of them.
#[derive(Clone, Copy)]
pub struct Classes<'a> {
    pub all: Items<'a>,
    pub rest: Items<'a>,
}

/// A place among the rows of a collection: what is left of it, and how that is taken.
// kept: one for all shapes; of a type for each the trait would have to name the bytes' lifetime, and so would what is over it
#[derive(Clone, Copy)]
pub enum Cursor<'a> {
    /// Each reply is a row.
    Each(Classes<'a>),
    /// Each cut is a row.
    Cut(Cuts<'a>),
    /// Each byte is a row.
    Bytes(&'a [u8]),
    /// Each reply, or each entry of a map, that is like none before it is a row.
    Distinct(Classes<'a>),
}

impl<'a> Cursor<'a> {
    /// The cursor before the first of some replies, each of them a row.
    pub(crate) fn each(all: Items<'a>) -> Cursor<'a>
        ensures { result ≡ Each (record { all = all.entry; rest = all.entry }) }
    {
        Cursor::Each(Classes { all, rest: all })
    }

    /// The cursor before the first of some distinct replies.
    pub(crate) fn distinct(all: Items<'a>) -> Cursor<'a>
        ensures { result ≡ Distinct (record { all = all.entry; rest = all.entry }) }
    {
        Cursor::Distinct(Classes { all, rest: all })
    }

    /// How many rows are left at most.
    pub(crate) fn size(self) -> usize
        ensures { result ≡ size self.entry }
    {
        match self {
            Cursor::Each(replies) => replies.rest.len(),
            Cursor::Cut(cuts) => cuts.replies.rest.len(),
            Cursor::Bytes(text) => text.len(),
            Cursor::Distinct(classes) => classes.rest.len(),
        }
    }
}
