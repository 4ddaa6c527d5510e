ghost use Rattle.std.specs.Prelude.{◌≡◌, ℕ, [], take, Ok};
ghost use Rattle.resp.specs.declared.case.Case.TheVariants.{Array};
ghost use Rattle.kinds.specs.Texts.{case_at};
ghost use Rattle.reply.specs.Parts.{flat_of, parts_of, unwrapped};
ghost use Rattle.reply.specs.View.{node_of};
ghost use Rattle.collections.specs.Lists.{list_rows};
ghost use Rattle.collections.specs.Maps.{entries, map_rows};
ghost use Rattle.collections.specs.Sets.{set_rows};
ghost use Rattle.collections.specs.Steps.{tabled};
ghost use Rattle.collections.specs.Theorems.{ListRows, MapRows, SetRows};

use crate::list::ListOf;
use crate::map::MapOf;
use crate::set::SetOf;
use crate::table::fill_table;
use kinds::{Fault, FromRedisValue, Rows, Same};
use reply::Reply;

// kept: three methods, since each says what its rows are: as a law of `Collection` its proof would have to stand in specs/, with
// the 500 lines that it rests on

impl<K: Same> SetOf<K> {
    /// Reads the members of a set into the table, and answers how many they are: the first of equal members stays.
    pub fn fill(&self, reply: Reply<'_>, table: &mut [K::Value]) -> Result<usize, Fault>
        ensures filled { (result, table.new) ≡ tabled (set_rows (K.FromRedisValue.one self.now.0) (K.Same.alike self.now.0) (node_of reply.entry)) table.old }
        ensures rows { (count : ℕ) → result ≡ Ok count → SetRows (K.FromRedisValue.one self.now.0) (K.Same.alike self.now.0) (parts_of (unwrapped (node_of reply.entry))) (take count table.new) }
    {
        fill_table(self, reply, table)
    }
}

impl<K: Same, V: FromRedisValue> MapOf<K, V> {
    /// Reads the entries of a map into the table, and answers how many they are: of equal keys the first stays, with the
    /// value of the last.
    pub fn fill(&self, reply: Reply<'_>, table: &mut [(K::Value, V::Value)]) -> Result<usize, Fault>
        ensures filled { (result, table.new) ≡ tabled (map_rows (K.FromRedisValue.one self.now.0) (V.FromRedisValue.one self.now.1) (K.Same.alike self.now.0) (node_of reply.entry)) table.old }
        ensures rows { (count : ℕ) → result ≡ Ok count → MapRows (K.FromRedisValue.one self.now.0) (V.FromRedisValue.one self.now.1) (K.Same.alike self.now.0) (entries (flat_of (unwrapped (node_of reply.entry)))) (take count table.new) }
    {
        fill_table(self, reply, table)
    }
}

impl<K: Rows> ListOf<K> {
    /// Reads the rows of a list into the table, and answers how many they are.
    pub fn fill(&self, reply: Reply<'_>, table: &mut [K::Value]) -> Result<usize, Fault>
        ensures filled { (result, table.new) ≡ tabled (list_rows (K.FromRedisValue.one self.now.0) (K.Rows.flat self.now.0) (K.Rows.more self.now.0) (K.Rows.joined self.now.0) (K.Rows.bytewise self.now.0) (node_of reply.entry)) table.old }
        ensures rows { (count : ℕ) → result ≡ Ok count → ListRows (K.FromRedisValue.one self.now.0) (K.Rows.flat self.now.0) (K.Rows.more self.now.0) (K.Rows.joined self.now.0) (K.Rows.bytewise self.now.0) (node_of reply.entry) (take count table.new) }
        ensures none { case_at (node_of reply.entry) ≡ Array → parts_of (node_of reply.entry) ≡ [] → result ≡ Ok 0 }
    {
        fill_table(self, reply, table)
    }
}
