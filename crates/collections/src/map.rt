ghost use Rattle.std.specs.Prelude.{◌≡◌, Ok, Err, MatchResult};
ghost use Rattle.reply.specs.View.{node_of, nodes_of};
ghost use Rattle.collections.specs.Lists.{listed_one};
ghost use Rattle.collections.specs.Maps.{map_items, map_left, map_rows};

use crate::collection::Collection;
use crate::cursor::Cursor;
use crate::inside::read_listed;
use crate::listed::Listed;
use kinds::{ElementReason, Fault, FromRedisValue, Same, Single, refuse};
use reply::{Items, Reply};
use resp::Case;

/// A map from K to V.
#[derive(Clone, Copy)]
pub struct MapOf<K, V>(pub K, pub V);

/// The keys and values of a map or of an array of even length, one after the other; of a nil none.
pub(crate) fn entries_of<'a>(reply: Reply<'a>) -> Result<Items<'a>, Fault>
    ensures { MatchResult result (λ items. map_items (node_of reply.entry) ≡ Ok (nodes_of items)) (λ fault. map_items (node_of reply.entry) ≡ Err fault) }
{
    let inner = reply.unwrapped();
    let items = inner.flat();
    match inner.case() {
        Case::Map | Case::Nil => Ok(items),
        Case::Array if items.len() % 2 == 0 => Ok(items),
        _ => Err(refuse(ElementReason::Kind, reply)),
    }
}

impl<K: Same, V: FromRedisValue> Collection for MapOf<K, V> {
    type Row = (K::Value, V::Value);

    ghost rows = { λ m. map_rows (K.FromRedisValue.one m.0) (V.FromRedisValue.one m.1) (K.Same.alike m.0) };

    ghost left = { λ m. map_left (K.FromRedisValue.one m.0) (V.FromRedisValue.one m.1) (K.Same.alike m.0) };

    fn begin<'a>(&self, reply: Reply<'a>) -> Result<Cursor<'a>, Fault> {
        let items = entries_of(reply)?;
        self.check_entries(items)?;
        Ok(Cursor::distinct(items))
    }

    fn advance(&self, cursor: &mut Cursor<'_>) -> Option<Result<(K::Value, V::Value), Fault>> {
        match cursor {
            Cursor::Each(replies) => self.next_key(replies),
            Cursor::Cut(cuts) => self.next_key(&mut cuts.replies),
            Cursor::Bytes(_) => None,
            Cursor::Distinct(replies) => self.next_key(replies),
        }
    }
}

impl<K: Same, V: FromRedisValue> FromRedisValue for MapOf<K, V> {
    type Value = Listed<(K::Value, V::Value)>;

    ghost one = { λ m. listed_one (map_rows (K.FromRedisValue.one m.0) (V.FromRedisValue.one m.1) (K.Same.alike m.0)) };

    fn from_redis_value(&self, reply: Reply<'_>) -> Result<Listed<(K::Value, V::Value)>, Fault> {
        read_listed(self, reply)
    }
}

impl<K: Same, V: FromRedisValue> Single for MapOf<K, V> {}
