ghost use Rattle.std.specs.Prelude.{◌≡◌, Bool, drop};
ghost use Rattle.resp.specs.Node.{Node};
ghost use Rattle.reply.specs.View.{node_of, nodes_of};
ghost use Rattle.kinds.specs.Same.{Equality, same_read};
ghost use Rattle.kinds.specs.Rows.{first_node};

use crate::fault::Fault;
use crate::kind::FromRedisValue;
use reply::{Items, Reply};

/// A kind whose values are compared: as a set's members and a map's keys are.
pub trait Same: FromRedisValue {
    // whether two replies read as the same value
    ghost alike: { Self → Node → Node → Bool };

    fn is_same(&self, a: Reply<'_>, b: Reply<'_>) -> bool
        ensures { result ≡ alike self.now (node_of a.entry) (node_of b.entry) };

    ghost equality: { (k : Self) → Equality (alike k) };
}

/// Whether the next of each are the same.
pub fn same_next<K: Same>(kind: &K, a: &mut Items<'_>, b: &mut Items<'_>) -> bool
    ensures same { result ≡ K.Same.alike kind.now (first_node (nodes_of a.old)) (first_node (nodes_of b.old)) }
    ensures first { nodes_of a.new ≡ drop 1 (nodes_of a.old) }
    ensures second { nodes_of b.new ≡ drop 1 (nodes_of b.old) }
{
    // kept: a nil where none is left is what a kind reads of a reply that is wanting
    let first = a.next().unwrap_or_default();
    kind.is_same(first, b.next().unwrap_or_default())
}

/// Whether both are read, as equal values, or neither is.
pub(crate) fn same_read<V: PartialEq + Copy>(a: Result<V, Fault>, b: Result<V, Fault>) -> bool
    ensures { result ≡ same_read V.PartialEq.eq a b }
{
    a.ok() == b.ok()
}
