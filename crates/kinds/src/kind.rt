ghost use Rattle.std.specs.Prelude.{◌≡◌, ℕ, suc, Bool, true, false, List, [], take, drop, is_ok, Ok, None, Option, Result, refl};
ghost use Rattle.resp.specs.Node.{Node};
ghost use Rattle.reply.specs.declared.spot.Spot.{Spot};
ghost use Rattle.reply.specs.View.{node_of, nodes_of};
ghost use Rattle.kinds.specs.Rows.{byte_by, first_by, many_of};
ghost use Rattle.kinds.specs.declared.fault.Fault.{Fault};

use crate::each::join_one;
use crate::fault::Fault;
use reply::{Items, Reply, Spot};

/// A kind of element: what a reply reads as.
pub trait FromRedisValue {
    type Value: Copy;

    // what one reply reads as
    ghost one: { Self → Node → Result Self.Value Fault };

    fn from_redis_value(&self, reply: Reply<'_>) -> Result<Self::Value, Fault>
        ensures { result ≡ one self.now (node_of reply.entry) };
}

/// A kind as an element of a list: what several replies, or a byte string, read as.
// kept: not one record of what it says, since its methods' clauses speak of one or two of them, and would take it apart
pub trait Rows: FromRedisValue {
    // whether a list of replies is cut, several to a row; else each is a row
    ghost flat: { Self → List Node → Bool };

    // how many replies beside its first make a row of such a list
    ghost more: { Self → ℕ };

    // what the replies of such a row read as, of a list whose first reply is at a place
    ghost joined: { Self → Spot → List Node → Result Self.Value Fault };

    // what a byte reads as, if byte strings are taken apart
    ghost bytewise: { Self → Option (ℕ → Self.Value) };

    // nothing is read of no replies, whatever one reads as
    ghost none: { (k : Self) (one : Node → Result Self.Value Fault) → many_of one (flat k []) (more k) (joined k) [] ≡ Ok [] };

    fn is_flat(&self, items: Items<'_>) -> bool
        ensures { result ≡ flat self.now (nodes_of items.entry) };

    fn join(&self, first: Spot, items: &mut Items<'_>) -> Result<Self::Value, Fault>
        ensures value { result ≡ joined self.now first (take (suc (more self.now)) (nodes_of items.old)) }
        ensures rest { is_ok result ≡ true → nodes_of items.new ≡ drop (suc (more self.now)) (nodes_of items.old) };

    fn of_byte(&self, byte: u8) -> Option<Self::Value>
        ensures { result ≡ byte_by (bytewise self.now) byte };
}

/// A kind that is never cut, and takes no byte string apart: each reply of a list is a row.
pub trait Single: FromRedisValue {}

impl<K: Single> Rows for K {
    ghost flat = { λ _ _. false };

    ghost more = { λ _. 0 };

    ghost joined = { λ k _. first_by (K.FromRedisValue.one k) };

    ghost bytewise = { λ _. None };

    ghost none = { λ _ _. refl };

    fn is_flat(&self, _items: Items<'_>) -> bool {
        false
    }

    fn join(&self, _first: Spot, items: &mut Items<'_>) -> Result<K::Value, Fault> {
        join_one(self, items)
    }

    fn of_byte(&self, _byte: u8) -> Option<K::Value> {
        None
    }
}
