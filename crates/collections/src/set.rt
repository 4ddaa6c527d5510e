ghost use Rattle.collections.specs.Lists.{listed_one};
ghost use Rattle.collections.specs.Sets.{set_left, set_rows};

use crate::collection::Collection;
use crate::cursor::Cursor;
use crate::inside::read_listed;
use crate::listed::Listed;
use crate::set_steps::{check_each, next_first};
use kinds::{ElementReason, Fault, FromRedisValue, Same, Single, refuse};
use reply::Reply;
use resp::Case;

/// A set of K.
#[derive(Clone, Copy)]
pub struct SetOf<K>(pub K);

impl<K: Same> Collection for SetOf<K> {
    type Row = K::Value;

    ghost rows = { λ k. set_rows (K.FromRedisValue.one k.0) (K.Same.alike k.0) };

    ghost left = { λ k. set_left (K.FromRedisValue.one k.0) (K.Same.alike k.0) };

    fn begin<'a>(&self, reply: Reply<'a>) -> Result<Cursor<'a>, Fault> {
        let inner = reply.unwrapped();
        let items = inner.items();
        match inner.case() {
            Case::Array | Case::Set | Case::Nil => {
                check_each(&self.0, items)?;
                Ok(Cursor::distinct(items))
            }
            _ => Err(refuse(ElementReason::Kind, reply)),
        }
    }

    fn advance(&self, cursor: &mut Cursor<'_>) -> Option<Result<K::Value, Fault>> {
        match cursor {
            Cursor::Each(replies) => next_first(&self.0, replies),
            Cursor::Cut(cuts) => next_first(&self.0, &mut cuts.replies),
            Cursor::Bytes(_) => None,
            Cursor::Distinct(replies) => next_first(&self.0, replies),
        }
    }
}

impl<K: Same> FromRedisValue for SetOf<K> {
    type Value = Listed<K::Value>;

    ghost one = { λ k. listed_one (set_rows (K.FromRedisValue.one k.0) (K.Same.alike k.0)) };

    fn from_redis_value(&self, reply: Reply<'_>) -> Result<Listed<K::Value>, Fault> {
        read_listed(self, reply)
    }
}

impl<K: Same> Single for SetOf<K> {}
