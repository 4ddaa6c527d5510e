ghost use Rattle.std.specs.Prelude.{List, refl};
ghost use Rattle.collections.specs.Lists.{list_rows};
ghost use Rattle.collections.specs.Maps.{map_rows};
ghost use Rattle.collections.specs.Sets.{set_rows};
ghost use Rattle.writes.specs.Writing.{All, list_written, MapCan, map_written, RowsStand, SetCan, set_written, Stands2};
ghost use Rattle.writes.specs.RowsBack.{list_back, set_back, map_back};

use crate::kind::{Writes, WritesEach};
use collections::{ListOf, MapOf, SetOf};
use kinds::{FromRedisValue, Rows, Same};

impl<K: Writes> WritesEach for ListOf<K> {
    ghost Model = { List K.Writes.Model };

    ghost can = { λ k. All (K.Writes.can k.0) };

    ghost written = { λ k. list_written (K.Writes.written k.0) };

    ghost stands = { λ k bs tree. RowsStand tree (list_rows (K.FromRedisValue.one k.0) (K.Rows.flat k.0) (K.Rows.more k.0) (K.Rows.joined k.0) (K.Rows.bytewise k.0)) (K.Writes.stands k.0 bs tree) };

    ghost one_back = { λ k bs tree held. list_back bs tree held (K.FromRedisValue.one k.0) (K.Rows.flat k.0) (K.Rows.more k.0) (K.Rows.joined k.0) (K.Rows.bytewise k.0) (K.Writes.can k.0) (K.Writes.written k.0) (K.Writes.stands k.0 bs tree) (K.Writes.many_back k.0 bs tree held) };

    ghost each = { λ _ _. refl };
}

impl<K: Writes + Same> WritesEach for SetOf<K> {
    ghost Model = { List K.Writes.Model };

    ghost can = { λ k. SetCan (K.Same.alike k.0) (K.Writes.can k.0) (K.Writes.written k.0) };

    ghost written = { λ k. set_written (K.Writes.written k.0) };

    ghost stands = { λ k bs tree. RowsStand tree (set_rows (K.FromRedisValue.one k.0) (K.Same.alike k.0)) (K.Writes.stands k.0 bs tree) };

    ghost one_back = { λ k bs tree held. set_back bs tree held (K.FromRedisValue.one k.0) (K.Same.alike k.0) (K.Writes.can k.0) (K.Writes.written k.0) (K.Writes.stands k.0 bs tree) (K.Writes.one_back k.0 bs tree held) };

    ghost each = { λ _ _. refl };
}

impl<K: Writes + Same, V: Writes> WritesEach for MapOf<K, V> {
    ghost Model = { List (K.Writes.Model × V.Writes.Model) };

    ghost can = { λ m. MapCan (K.Same.alike m.0) (K.Writes.can m.0) (V.Writes.can m.1) (K.Writes.written m.0) };

    ghost written = { λ m. map_written (K.Writes.written m.0) (V.Writes.written m.1) };

    ghost stands = { λ m bs tree. RowsStand tree (map_rows (K.FromRedisValue.one m.0) (V.FromRedisValue.one m.1) (K.Same.alike m.0)) (Stands2 (K.Writes.stands m.0 bs tree) (V.Writes.stands m.1 bs tree)) };

    ghost one_back = { λ k bs tree held. map_back bs tree held (K.FromRedisValue.one k.0) (V.FromRedisValue.one k.1) (K.Same.alike k.0) (K.Writes.can k.0) (V.Writes.can k.1) (K.Writes.written k.0) (V.Writes.written k.1) (K.Writes.stands k.0 bs tree) (V.Writes.stands k.1 bs tree) (K.Writes.one_back k.0 bs tree held) (V.Writes.one_back k.1 bs tree held) };

    ghost each = { λ _ _. refl };
}
