ghost use Rattle.std.specs.Prelude.{◌≡◌};
ghost use Rattle.reply.specs.View.{node_of, nodes_of};
ghost use Rattle.collections.specs.Picks.{NamedAs, Under, found_nodes, is_named, last_named, value_under};

use crate::entry::Entries;
use crate::map::{MapOf, entries_of};
use kinds::{Fault, FromRedisValue, Text, Value};
use reply::{Items, Reply};

/// Whether a key's text is the name.
fn is_named(key: Reply<'_>, name: &[u8]) -> bool
    ensures { result ≡ is_named name.now (node_of key.entry) }
{
    key.unwrapped().text() == name
}

/// The value of the last entry of that name.
fn last_named<'a>(items: Items<'a>, name: &[u8]) -> Option<Reply<'a>>
    ensures { found_nodes result ≡ last_named name.now (nodes_of items.entry) }
{
    Entries { rest: items }
        .filter(|entry| is_named(entry.key, name))
        .last()
        .map(|entry| entry.value)
}

/// The value under a name of a map, once all its entries are read as text and replies.
fn value_under<'a>(reply: Reply<'a>, name: &[u8]) -> Result<Option<Reply<'a>>, Fault>
    ensures { NamedAs (value_under name.now (node_of reply.entry)) result }
{
    let items = entries_of(reply)?;
    MapOf(Text, Value).check_entries(items)?;
    Ok(last_named(items, name))
}

/// The text under a name of a map from text to replies: of equal keys that of the last; the fallback itself where no key is
/// the name.
pub fn text_under<'a>(reply: Reply<'a>, name: &[u8], fallback: &'a [u8]) -> Result<&'a [u8], Fault>
    ensures { Under fallback.entry (value_under name.now (node_of reply.entry)) result }
{
    // kept: no option, since the fallback itself is the answer where no key is the name
    let Some(value) = value_under(reply, name)? else {
        return Ok(fallback);
    };
    Text.from_redis_value(value)?;
    Ok(value.unwrapped().text())
}
