ghost use Rattle.std.specs.Prelude.{◌≡◌, ℕ, suc, true, List, length, take, drop, is_ok, Result, ◌==◌};
ghost use Rattle.resp.specs.Node.{Node};
ghost use Rattle.reply.specs.View.{node_of, nodes_of};
ghost use Rattle.kinds.specs.declared.fault.Fault.{Fault};
ghost use Rattle.kinds.specs.Tuples.{holds, is_tuple, tuple_flat, tuple_joined, tuple_one};

use crate::fault::{ElementReason, Fault};
use crate::fault_at::{refuse, refuse_at};
use crate::kind::FromRedisValue;
use reply::{Items, Reply, Spot};
use resp::Case;

/// Kinds that read so many replies, one each.
pub trait Tuple {
    type Value: Copy;

    // how many replies beside the first
    ghost BESIDE: { ℕ };

    const BESIDE: usize;

    // what they read as
    ghost fields: { Self → List Node → Result Self.Value Fault };

    fn read_fields(&self, items: &mut Items<'_>) -> Result<Self::Value, Fault>
        ensures value { result ≡ fields self.now (take (suc BESIDE) (nodes_of items.old)) }
        ensures rest { is_ok result ≡ true → nodes_of items.new ≡ drop (suc BESIDE) (nodes_of items.old) };
}

/// Whether a reply of that case holds replies that can be a tuple's.
fn can_hold(case: Case) -> bool
    ensures { result ≡ holds case }
{
    matches!(case, Case::Array | Case::Set | Case::Map)
}

/// Whether the reply is an array, a set or a map that holds one reply and so many more.
fn is_tuple(reply: Reply<'_>, beside: usize) -> bool
    ensures { result ≡ is_tuple beside (node_of reply.entry) }
{
    can_hold(reply.case()) && is_one_and(reply.flat(), beside)
}

/// Whether there are one reply and so many more.
fn is_one_and(items: Items<'_>, beside: usize) -> bool
    ensures { result ≡ (length (nodes_of items.entry) == suc beside) }
{
    items.len().checked_sub(1) == Some(beside)
}

/// The tuple that a reply is.
impl<T: Tuple> FromRedisValue for T {
    type Value = T::Value;

    ghost one = { λ k. tuple_one T.BESIDE (T.Tuple.fields k) };

    fn from_redis_value(&self, reply: Reply<'_>) -> Result<T::Value, Fault> {
        let inner = reply.unwrapped();
        if !can_hold(inner.case()) {
            return Err(refuse(ElementReason::Kind, reply));
        }
        let mut items = inner.flat();
        if !is_one_and(items, T::BESIDE) {
            return Err(refuse(ElementReason::Count, reply));
        }
        self.read_fields(&mut items)
    }
}

/// Whether a list of replies is cut flat: not all are tuples.
pub fn tuple_flat<T: Tuple>(tuple: &T, items: Items<'_>) -> bool
    ensures { result ≡ tuple_flat T.BESIDE (nodes_of items.entry) }
{
    let mut rest = items;
    rest.any(|reply| !is_tuple(reply, T::BESIDE))
}

/// The tuple of the next cut of a list whose first reply is at a place.
pub fn tuple_join<T: Tuple>(
    tuple: &T,
    first: Spot,
    items: &mut Items<'_>,
) -> Result<T::Value, Fault>
    ensures value { result ≡ tuple_joined T.BESIDE (T.Tuple.fields tuple.now) first (take (suc T.BESIDE) (nodes_of items.old)) }
    ensures rest { is_ok result ≡ true → nodes_of items.new ≡ drop (suc T.BESIDE) (nodes_of items.old) }
{
    if items.len() <= T::BESIDE {
        return Err(refuse_at(ElementReason::Count, first));
    }
    tuple.read_fields(items)
}
