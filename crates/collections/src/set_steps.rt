ghost use Rattle.std.specs.Prelude.{◌≡◌, take};
ghost use Rattle.kinds.specs.Rows.{many_by};
ghost use Rattle.reply.specs.View.{node_of, nodes_of};
ghost use Rattle.collections.specs.Sets.{firsts_in, seen_in};
ghost use Rattle.collections.specs.Steps.{Falls, Steps, judged};

use crate::cursor::Classes;
use kinds::{Fault, FromRedisValue, Same};
use reply::{Items, Reply};

/// Whether one of the first `count` replies is like this one.
fn is_seen<K: Same>(kind: &K, all: Items<'_>, count: usize, reply: Reply<'_>) -> bool
    ensures { result ≡ seen_in (K.Same.alike kind.now) (node_of reply.entry) (take count (nodes_of all.entry)) }
{
    all.take(count).any(|earlier| kind.is_same(earlier, reply))
}

/// The next reply that is like none before it, as a row.
pub(crate) fn next_first<K: Same>(
    kind: &K,
    classes: &mut Classes<'_>,
) -> Option<Result<K::Value, Fault>>
    ensures step { Steps (many_by (K.FromRedisValue.one kind.now) (firsts_in (K.Same.alike kind.now) (nodes_of classes.old.all) (nodes_of classes.old.rest))) result (many_by (K.FromRedisValue.one kind.now) (firsts_in (K.Same.alike kind.now) (nodes_of classes.new.all) (nodes_of classes.new.rest))) }
    ensures falls { Falls classes.old.rest.left result classes.new.rest.left }
{
    // kept: the count of those before each falls with the row itself, which a closure for `find` would not be handed
    loop {
        let before = classes.all.len().saturating_sub(classes.rest.len());
        let reply = classes.rest.next()?;
        if !is_seen(kind, classes.all, before, reply) {
            return Some(kind.from_redis_value(reply));
        }
    }
}

/// Reads each reply by itself, up to the first refusal.
pub(crate) fn check_each<K: FromRedisValue>(kind: &K, items: Items<'_>) -> Result<(), Fault>
    ensures { result ≡ judged (many_by (K.FromRedisValue.one kind.now) (nodes_of items.entry)) }
{
    let mut rest = items;
    rest.try_for_each(|reply| kind.from_redis_value(reply).and(Ok(())))
}
