ghost use Rattle.kinds.specs.Plain.{option_one};

use crate::fault::Fault;
use crate::kind::{FromRedisValue, Single};
use reply::Reply;
use resp::Case;

/// What K reads, or none of a nil.
#[derive(Clone, Copy)]
pub struct Optional<K>(pub K);

impl<K: FromRedisValue> FromRedisValue for Optional<K> {
    type Value = Option<K::Value>;

    ghost one = { λ k. option_one (K.FromRedisValue.one k.0) };

    fn from_redis_value(&self, reply: Reply<'_>) -> Result<Option<K::Value>, Fault> {
        let inner = reply.unwrapped();
        match inner.case() {
            Case::Nil => Ok(None),
            _ => Ok(Some(self.0.from_redis_value(inner)?)),
        }
    }
}

impl<K: FromRedisValue> Single for Optional<K> {}
