ghost use Rattle.std.specs.Prelude.{◌≡◌, IsTrue};
ghost use Rattle.resp.specs.Reading.{head};
ghost use Rattle.resp.specs.Told.{Opens, Tells, counting, is_counted, items_in, leaf_opening, most_of};

use crate::fault::{WireFault, WireReason};
use crate::item::Item;
use crate::kind::Kind;
use crate::limits::{ITEMS_MOST, PAIRS_MOST};
use crate::opening::{Opening, Size};

/// A leaf that ends there.
fn leaf(end: Result<usize, WireFault>) -> Result<Opening, WireFault>
    ensures { result ≡ leaf_opening end }
{
    // kept: by `end.map(..)` a walk over short strings is slower: 25% more instructions
    let start = end?;
    Ok(Opening {
        items: 0,
        named: false,
        start,
    })
}

impl Kind {
    /// The most that a collection of the kind counts: pairs of a map or an attribute, items of any other.
    fn most(self) -> u32
        ensures { result ≡ most_of self }
    {
        match self {
            Kind::Map | Kind::Attribute => PAIRS_MOST,
            _ => ITEMS_MOST,
        }
    }

    /// How many replies stand right below a collection that counts so many. An attribute's pairs are followed by the reply that they are about.
    fn items(self, count: u32) -> usize
        ensures { result ≡ items_in (counting self count) }
    {
        let count = count as usize;
        match self {
            Kind::Map => 2 * count,
            Kind::Attribute => 2 * count + 1,
            _ => count,
        }
    }
}

impl<'a> Item<'a> {
    fn array_head(self) -> Result<Opening, WireFault>
        ensures { Tells Opens (head Kind.Array) self.entry result }
    {
        let Size { count, start } = self.size_or_null(ITEMS_MOST)?;
        Ok(Opening {
            items: count.unwrap_or(0) as usize,
            named: false,
            start,
        })
    }

    /// A set, a push, a map or an attribute. A push has at least one item, which names it.
    fn collection_head(self, kind: Kind) -> Result<Opening, WireFault>
        requires { IsTrue (is_counted kind) }
        ensures { Tells Opens (head kind) self.entry result }
    {
        let Size { count, start } = self.size(kind.most())?;
        let named = kind == Kind::Push;
        if named && count == 0 {
            return Err(WireReason::Content.at(self.at));
        }
        Ok(Opening {
            items: kind.items(count),
            named,
            start,
        })
    }

    /// The item, which is of that kind, up to its parts.
    pub(crate) fn head_of(self, kind: Kind) -> Result<Opening, WireFault>
        ensures { Tells Opens (head kind) self.entry result }
    {
        match kind {
            Kind::SimpleString | Kind::SimpleError => leaf(self.text_line()),
            Kind::BulkString => leaf(self.bulk_string()),
            Kind::BulkError => leaf(self.bulk_error()),
            Kind::VerbatimString => leaf(self.verbatim_string()),
            Kind::Array => self.array_head(),
            // kept: an arm for each, which is compiled for its kind; by one arm a walk over small maps and sets is slower: 8% more instructions
            Kind::Set => self.collection_head(Kind::Set),
            Kind::Push => self.collection_head(Kind::Push),
            Kind::Map => self.collection_head(Kind::Map),
            Kind::Attribute => self.collection_head(Kind::Attribute),
            Kind::Integer | Kind::Null | Kind::Boolean | Kind::Double | Kind::BigNumber => leaf(
                self.content_line(kind),
            ),
        }
    }
}
