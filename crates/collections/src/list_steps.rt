ghost use Rattle.std.specs.Prelude.{◌≡◌};
ghost use Rattle.kinds.specs.Rows.{cuts, first_node, many_by};
ghost use Rattle.reply.specs.Parts.{spot_of};
ghost use Rattle.reply.specs.View.{nodes_of};
ghost use Rattle.collections.specs.Steps.{Falls, Steps};

use crate::cursor::Cuts;
use kinds::{Fault, FromRedisValue, Rows};
use reply::{Items, Spot};

/// The next reply as a row.
pub(crate) fn next_each<K: FromRedisValue>(
    kind: &K,
    rest: &mut Items<'_>,
) -> Option<Result<K::Value, Fault>>
    ensures step { Steps (many_by (K.FromRedisValue.one kind.now) (nodes_of rest.old)) result (many_by (K.FromRedisValue.one kind.now) (nodes_of rest.new)) }
    ensures falls { Falls rest.old.left result rest.new.left }
{
    let reply = rest.next()?;
    Some(kind.from_redis_value(reply))
}

/// The next cut as a row.
pub(crate) fn next_cut<K: Rows>(kind: &K, left: &mut Cuts<'_>) -> Option<Result<K::Value, Fault>>
    ensures step { Steps (many_by (K.Rows.joined kind.now left.old.first) (cuts (K.Rows.more kind.now) (nodes_of left.old.replies.rest))) result (many_by (K.Rows.joined kind.now left.new.first) (cuts (K.Rows.more kind.now) (nodes_of left.new.replies.rest))) }
    ensures falls { Falls left.old.replies.rest.left result left.new.replies.rest.left }
{
    if left.replies.rest.len() == 0 {
        return None;
    }
    let row = kind.join(left.first, &mut left.replies.rest);
    // asked, so that what `falls` says of the count is known
    let _left = left.replies.rest.len();
    Some(row)
}

/// Where the first of some replies begins.
pub(crate) fn first_spot(items: Items<'_>) -> Spot
    ensures { result ≡ spot_of (first_node (nodes_of items.entry)) }
{
    let mut rest = items;
    rest.next().unwrap_or_default().spot()
}
