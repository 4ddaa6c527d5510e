ghost use Rattle.std.specs.Prelude.{◌≡◌, Ok};
ghost use Rattle.resp.specs.Node.{erase};
ghost use Rattle.reply.specs.View.{node_of};

use crate::kind::Writes;
use kinds::{Fault, FromRedisValue, Rows};
use reply::Reply;

/// Reads a reply as a kind that is written: where the reply is a wire form of what a model writes, the value stands for the
/// model.
pub fn read_written<K: Writes>(kind: &K, reply: Reply<'_>) -> Result<K::Value, Fault>
    ensures read { result ≡ K.FromRedisValue.one kind.now (node_of reply.entry) }
    ensures back { (m : K.Writes.Model) → K.Writes.can kind.now m → erase (node_of reply.entry) ≡ K.Writes.written kind.now m → ((v : K.Value) × (result ≡ Ok v) × K.Writes.stands kind.now reply.entry.bytes.now (node_of reply.entry) v m) }
{
    kind.from_redis_value(reply)
}
