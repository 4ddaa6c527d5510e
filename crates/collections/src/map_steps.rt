ghost use Rattle.std.specs.Prelude.{◌≡◌, ◌*◌, take};
ghost use Rattle.kinds.specs.Rows.{many_by};
ghost use Rattle.reply.specs.View.{node_of, nodes_of};
ghost use Rattle.collections.specs.Maps.{entries, entry_one, last_for, merged_in, seen_key};
ghost use Rattle.collections.specs.Steps.{Falls, Steps, judged};

use crate::cursor::Classes;
use crate::entry::{Entries, Entry};
use crate::map::MapOf;
use kinds::{Fault, FromRedisValue, Same};
use reply::{Items, Reply};

/// Whether a key among the first `count` entries is like this one.
fn is_key_seen<K: Same>(keys: &K, all: Items<'_>, count: usize, key: Reply<'_>) -> bool
    ensures { result ≡ seen_key (K.Same.alike keys.now) (node_of key.entry) (take (2 * count) (nodes_of all.entry)) }
{
    Entries { rest: all }
        .take(count)
        .any(|earlier| keys.is_same(earlier.key, key))
}

/// The value of the last entry whose key is like this one; `value` where there is none.
fn last_value<'a, K: Same>(
    keys: &K,
    items: Items<'a>,
    key: Reply<'_>,
    value: Reply<'a>,
) -> Reply<'a>
    ensures { node_of result ≡ last_for (K.Same.alike keys.now) (node_of key.entry) (node_of value.entry) (nodes_of items.entry) }
{
    Entries { rest: items }
        .filter(|entry| keys.is_same(key, entry.key))
        .last()
        .map_or(value, |entry| entry.value)
}

impl<K: FromRedisValue, V: FromRedisValue> MapOf<K, V> {
    /// The key, then the value.
    fn read_entry(&self, entry: Entry<'_>) -> Result<(K::Value, V::Value), Fault>
        ensures { result ≡ entry_one (K.FromRedisValue.one self.now.0) (V.FromRedisValue.one self.now.1) (node_of entry.entry.key, node_of entry.entry.value) }
    {
        let key = self.0.from_redis_value(entry.key)?;
        let value = self.1.from_redis_value(entry.value)?;
        Ok((key, value))
    }

    /// Reads each entry, up to the first refusal.
    pub(crate) fn check_entries(&self, items: Items<'_>) -> Result<(), Fault>
        ensures { result ≡ judged (many_by (entry_one (K.FromRedisValue.one self.now.0) (V.FromRedisValue.one self.now.1)) (entries (nodes_of items.entry))) }
    {
        Entries { rest: items }.try_for_each(|entry| self.read_entry(entry).and(Ok(())))
    }
}

impl<K: Same, V: FromRedisValue> MapOf<K, V> {
    /// The next entry whose key is like none before it, with the last value of that key.
    pub(crate) fn next_key(
        &self,
        classes: &mut Classes<'_>,
    ) -> Option<Result<(K::Value, V::Value), Fault>>
        ensures step { Steps (many_by (entry_one (K.FromRedisValue.one self.now.0) (V.FromRedisValue.one self.now.1)) (merged_in (K.Same.alike self.now.0) (nodes_of classes.old.all) (nodes_of classes.old.rest))) result (many_by (entry_one (K.FromRedisValue.one self.now.0) (V.FromRedisValue.one self.now.1)) (merged_in (K.Same.alike self.now.0) (nodes_of classes.new.all) (nodes_of classes.new.rest))) }
        ensures falls { Falls classes.old.rest.left result classes.new.rest.left }
    {
        let mut entries = Entries { rest: classes.rest };
        // kept: as in `next_first`
        loop {
            let before = classes.all.len().saturating_sub(entries.rest.len()) / 2;
            let entry = entries.next()?;
            classes.rest = entries.rest;
            if !is_key_seen(&self.0, classes.all, before, entry.key) {
                let value = last_value(&self.0, classes.rest, entry.key, entry.value);
                return Some(self.read_entry(Entry { value, ..entry }));
            }
        }
    }
}
