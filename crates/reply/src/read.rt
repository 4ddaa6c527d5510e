ghost use Rattle.std.specs.Prelude.{◌≡◌, false, length};
ghost use Rattle.resp.specs.Cases.{case_of};
ghost use Rattle.resp.specs.Node.{erase};
ghost use Rattle.reply.specs.Parts.{flat_of, inner_of, key_of, parts_of, spot_of, unwrapped, value_of};
ghost use Rattle.reply.specs.View.{node_of, nodes_of};

use crate::open::singles;
use crate::spot::Spot;
use crate::view::{Items, Reply};
use resp::{Case, case_of};

impl<'a> Reply<'a> {
    /// Where the reply begins.
    pub fn spot(self) -> Spot
        ensures { result ≡ spot_of (node_of self.entry) }
    {
        Spot {
            at: self.at,
            pair: self.pair,
        }
    }

    /// The key of a pair; of another view the view itself.
    pub fn key(self) -> Reply<'a>
        ensures tree { node_of result ≡ key_of (node_of self.entry) }
        ensures bytes { result.bytes ≡ self.entry.bytes }
        ensures place { result.at ≡ self.entry.at }
        ensures single { result.pair ≡ false }
    {
        let key = self.at;
        Reply {
            bytes: self.bytes,
            at: key,
            pair: false,
        }
    }

    /// The value of a pair; of another view the view itself.
    pub fn value(self) -> Reply<'a>
        ensures tree { node_of result ≡ value_of (node_of self.entry) }
        ensures bytes { result.bytes ≡ self.entry.bytes }
    {
        if !self.pair {
            return self;
        }
        Reply {
            bytes: self.bytes,
            at: self.key().end(),
            pair: false,
        }
    }

    /// What stands right below the reply: the items of an array, a set or a push, the pairs of a map or an attribute; of a pair itself alone.
    pub fn items(self) -> Items<'a>
        ensures trees { nodes_of result ≡ parts_of (node_of self.entry) }
        ensures bytes { result.bytes ≡ self.entry.bytes }
    {
        if self.pair {
            return self.alone();
        }
        self.below()
    }

    /// The same with no pair by itself: the keys and the values of a map or an attribute one after another; of a pair its key and its value.
    pub fn flat(self) -> Items<'a>
        ensures trees { nodes_of result ≡ flat_of (node_of self.entry) }
        ensures bytes { result.bytes ≡ self.entry.bytes }
    {
        if self.pair {
            return Items {
                bytes: self.bytes,
                at: self.at,
                left: 2,
                pairs: false,
            };
        }
        let row = self.below();
        Items {
            bytes: self.bytes,
            at: row.at,
            left: singles(row.left, row.pairs),
            pairs: false,
        }
    }

    /// All that stands right below: of a map its pairs, of an attribute its keys and values and then its data, of a pair its key and its value.
    pub(crate) fn inner(self) -> Items<'a>
        ensures trees { nodes_of result ≡ inner_of (node_of self.entry) }
        ensures bytes { result.bytes ≡ self.entry.bytes }
    {
        if self.pair {
            return self.flat();
        }
        let row = self.below();
        if !self.is_attribute() {
            return row;
        }
        Items {
            bytes: self.bytes,
            at: row.at,
            left: 2 * row.left + 1,
            pairs: false,
        }
    }

    /// One attribute replaced by its data; another view as it is.
    pub fn unwrapped(self) -> Reply<'a>
        ensures tree { node_of result ≡ unwrapped (node_of self.entry) }
        ensures bytes { result.bytes ≡ self.entry.bytes }
    {
        if !self.is_attribute() {
            return self;
        }
        Reply {
            bytes: self.bytes,
            at: self.below().end(),
            pair: false,
        }
    }

    /// The case of the reply; a pair is a map of itself alone.
    pub fn case(self) -> Case
        ensures { result ≡ case_of (erase (node_of self.entry)) }
    {
        if self.pair {
            return Case::Map;
        }
        let at = self.at;
        case_of(&self.bytes[at..]).unwrap()
    }
}

impl<'a> Items<'a> {
    /// How many are left.
    pub fn len(self) -> usize
        ensures left { result ≡ self.entry.left }
        ensures count { result ≡ length (nodes_of self.entry) }
    {
        self.left
    }
}
