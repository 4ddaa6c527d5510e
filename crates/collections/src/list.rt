ghost use Rattle.collections.specs.Lists.{list_left, list_rows, listed_one};

use crate::collection::Collection;
use crate::cursor::{Classes, Cursor, Cuts};
use crate::inside::read_listed;
use crate::list_steps::{first_spot, next_cut, next_each};
use crate::listed::Listed;
use kinds::{ElementReason, Fault, FromRedisValue, Rows, Single, refuse, text_of};
use reply::Reply;
use resp::Case;

/// A list of K.
#[derive(Clone, Copy)]
pub struct ListOf<K>(pub K);

impl<K: Rows> Collection for ListOf<K> {
    type Row = K::Value;

    ghost rows = { λ k. list_rows (K.FromRedisValue.one k.0) (K.Rows.flat k.0) (K.Rows.more k.0) (K.Rows.joined k.0) (K.Rows.bytewise k.0) };

    ghost left = { λ k. list_left (K.FromRedisValue.one k.0) (K.Rows.more k.0) (K.Rows.joined k.0) (K.Rows.bytewise k.0) };

    fn begin<'a>(&self, reply: Reply<'a>) -> Result<Cursor<'a>, Fault> {
        let items = reply.items();
        match reply.case() {
            // kept: asked by a byte, since a kind hands out no function from bytes
            Case::BulkString if self.0.of_byte(0).is_some() => Ok(Cursor::Bytes(text_of(reply))),
            Case::BulkString => Ok(Cursor::each(reply.alone())),
            Case::Array | Case::Set if self.0.is_flat(items) => {
                Ok(Cursor::Cut(Cuts {
                    first: first_spot(items),
                    replies: Classes {
                        all: items,
                        rest: items,
                    },
                }))
            }
            Case::Array | Case::Set | Case::Map | Case::Nil => Ok(Cursor::each(items)),
            _ => Err(refuse(ElementReason::Kind, reply)),
        }
    }

    fn advance(&self, cursor: &mut Cursor<'_>) -> Option<Result<K::Value, Fault>> {
        match cursor {
            Cursor::Each(replies) => next_each(&self.0, &mut replies.rest),
            Cursor::Cut(cuts) => next_cut(&self.0, cuts),
            Cursor::Bytes(text) => {
                let (byte, others) = text.split_first()?;
                let value = self.0.of_byte(*byte)?;
                *text = others;
                Some(Ok(value))
            }
            Cursor::Distinct(classes) => next_each(&self.0, &mut classes.rest),
        }
    }
}

// kept: the same for lists, sets and maps: one impl for all collections would stand beside the one for all tuples, which is
// refused as a conflict

impl<K: Rows> FromRedisValue for ListOf<K> {
    type Value = Listed<K::Value>;

    ghost one = { λ k. listed_one (list_rows (K.FromRedisValue.one k.0) (K.Rows.flat k.0) (K.Rows.more k.0) (K.Rows.joined k.0) (K.Rows.bytewise k.0)) };

    fn from_redis_value(&self, reply: Reply<'_>) -> Result<Listed<K::Value>, Fault> {
        read_listed(self, reply)
    }
}

impl<K: Rows> Single for ListOf<K> {}
