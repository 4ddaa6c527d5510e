ghost use Rattle.std.specs.Prelude.{◌≡◌, take, drop};
ghost use Rattle.reply.specs.View.{nodes_of};
ghost use Rattle.kinds.specs.Rows.{first_by};

use crate::fault::Fault;
use crate::kind::FromRedisValue;
use reply::Items;

/// The next reply, by itself; a nil where none is left.
pub fn read_next<K: FromRedisValue>(kind: &K, items: &mut Items<'_>) -> Result<K::Value, Fault>
    ensures value { result ≡ first_by (K.FromRedisValue.one kind.now) (nodes_of items.old) }
    ensures rest { nodes_of items.new ≡ drop 1 (nodes_of items.old) }
{
    kind.from_redis_value(items.next().unwrap_or_default())
}

/// The same as a row: how a kind reads that is never cut.
// kept: what it says is of the first reply alone, which follows from what `read_next` says of all
pub fn join_one<K: FromRedisValue>(kind: &K, items: &mut Items<'_>) -> Result<K::Value, Fault>
    ensures value { result ≡ first_by (K.FromRedisValue.one kind.now) (take 1 (nodes_of items.old)) }
    ensures rest { nodes_of items.new ≡ drop 1 (nodes_of items.old) }
{
    read_next(kind, items)
}
