ghost use Rattle.std.specs.Prelude.{MatchOption};
ghost use Rattle.std.specs.Iterator.{at_most};
ghost use Rattle.collections.specs.Entries.{NoEntry, PassesEntry};

use reply::{Items, Reply};

/// A key and its value.
#[derive(Clone, Copy)]
pub struct Entry<'a> {
    pub key: Reply<'a>,
    pub value: Reply<'a>,
}

/// Keys and values, one after the other, as entries. A last key without a value is left out.
#[derive(Clone, Copy)]
pub struct Entries<'a> {
    pub rest: Items<'a>,
}

impl<'a> Iterator for Entries<'a> {
    type Item = Entry<'a>;

    ghost next_gives = { λ row first others. MatchOption first (NoEntry row others) (λ entry. PassesEntry row entry others) };

    ghost remaining = { λ row. at_most row.rest.left };

    fn next(&mut self) -> Option<Entry<'a>> {
        let key = self.rest.next()?;
        let value = self.rest.next()?;
        Some(Entry { key, value })
    }
}
