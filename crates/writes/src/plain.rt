ghost use Rattle.std.proofs.Math.Bool as bits;
ghost use Rattle.std.specs.Prelude.{◌≡◌, ℕ, List, None, Option, refl};
ghost use Rattle.resp.specs.Reply as wire;
ghost use Rattle.utf8.specs.Scan.{ill_formed};
ghost use Rattle.kinds.specs.Numbers.{bounds_from};
ghost use Rattle.writes.specs.Writing.{Can2, Can3, Can4, InBounds, OptionCan, OptionStands, option_written, PlaceStands, Stands2, Stands3, Stands4, TextStands, written2, written3, written4};
ghost use Rattle.writes.specs.ReadBack.{integer_back, bool_back, text_back, value_back, option_back, back2, test2, tuples_back, back3, test3, back4, test4};
ghost use Rattle.resp.specs.Reply.{One, Int, Boolean, BulkString};
ghost use Rattle.kinds.specs.Tuples.{fields2, tuple_joined, tuple_one, fields3, fields4};

use crate::kind::{Writes, WritesEach};
use kinds::{Bool, FromRedisValue, Integer, Optional, Text, Value, Width};

impl<T: Width> WritesEach for Integer<T> {
    ghost Model = { T };

    ghost can = { λ _ m. InBounds (bounds_from T.LOW T.HIGH) (T.widen m) × T.in_i64 m };

    ghost written = { λ _ m. wire.One (wire.Int (T.widen m)) };

    ghost stands = { λ _ _ _ v m. v ≡ m };

    ghost one_back = { λ k bs tree held. integer_back tree (bounds_from T.LOW T.HIGH) T.narrow T.widen T.in_i64 T.same };

    ghost each = { λ _ _. refl };
}

impl WritesEach for Bool {
    ghost Model = { bits.Bool };

    ghost can = { λ _ _. Unit {0} };

    ghost written = { λ _ m. wire.One (wire.Boolean m) };

    ghost stands = { λ _ _ _ v m. v ≡ m };

    ghost one_back = { λ k bs tree held. bool_back tree };

    ghost each = { λ _ _. refl };
}

impl WritesEach for Text {
    ghost Model = { List ℕ };

    ghost can = { λ _ m. ill_formed m ≡ None };

    ghost written = { λ _ m. wire.One (wire.BulkString m) };

    ghost stands = { λ _ bs _. TextStands bs };

    ghost one_back = { λ k bs tree held. text_back bs tree held };

    ghost each = { λ _ _. refl };
}

impl WritesEach for Value {
    ghost Model = { wire.Reply };

    ghost can = { λ _ _. Unit {0} };

    ghost written = { λ _ m. m };

    ghost stands = { λ _ _. PlaceStands };

    ghost one_back = { λ k bs tree held. value_back bs tree held };

    ghost each = { λ _ _. refl };
}

impl<K: Writes> WritesEach for Optional<K> {
    ghost Model = { Option K.Writes.Model };

    ghost can = { λ k. OptionCan (K.Writes.can k.0) (K.Writes.written k.0) };

    ghost written = { λ k. option_written (K.Writes.written k.0) };

    ghost stands = { λ k bs tree. OptionStands (K.Writes.stands k.0 bs tree) };

    ghost one_back = { λ k bs tree held. option_back tree (K.FromRedisValue.one k.0) (K.Writes.can k.0) (K.Writes.written k.0) (K.Writes.stands k.0 bs tree) (K.Writes.one_back k.0 bs tree held) };

    ghost each = { λ _ _. refl };
}

impl<A: Writes, B: Writes> Writes for (A, B) {
    ghost Model = { A.Writes.Model × B.Writes.Model };

    ghost can = { λ k. Can2 (A.Writes.can k.0) (B.Writes.can k.1) };

    ghost written = { λ k. written2 (A.Writes.written k.0) (B.Writes.written k.1) };

    ghost stands = { λ k bs tree. Stands2 (A.Writes.stands k.0 bs tree) (B.Writes.stands k.1 bs tree) };

    ghost one_back = { λ k bs tree held. back2 tree (A.FromRedisValue.one k.0) (A.Writes.can k.0) (A.Writes.written k.0) (A.Writes.stands k.0 bs tree) (B.FromRedisValue.one k.1) (B.Writes.can k.1) (B.Writes.written k.1) (B.Writes.stands k.1 bs tree) (A.Writes.one_back k.0 bs tree held) (B.Writes.one_back k.1 bs tree held) };

    ghost many_back = { λ k bs tree held. tuples_back tree 1 (tuple_one 1 (fields2 (A.FromRedisValue.one k.0) (B.FromRedisValue.one k.1))) (tuple_joined 1 (fields2 (A.FromRedisValue.one k.0) (B.FromRedisValue.one k.1))) (Can2 (A.Writes.can k.0) (B.Writes.can k.1)) (written2 (A.Writes.written k.0) (B.Writes.written k.1)) (Stands2 (A.Writes.stands k.0 bs tree) (B.Writes.stands k.1 bs tree)) (test2 (A.Writes.written k.0) (B.Writes.written k.1)) (back2 tree (A.FromRedisValue.one k.0) (A.Writes.can k.0) (A.Writes.written k.0) (A.Writes.stands k.0 bs tree) (B.FromRedisValue.one k.1) (B.Writes.can k.1) (B.Writes.written k.1) (B.Writes.stands k.1 bs tree) (A.Writes.one_back k.0 bs tree held) (B.Writes.one_back k.1 bs tree held)) };
}

impl<A: Writes, B: Writes, C: Writes> Writes for (A, B, C) {
    ghost Model = { A.Writes.Model × B.Writes.Model × C.Writes.Model };

    ghost can = { λ k. Can3 (A.Writes.can k.0) (B.Writes.can k.1) (C.Writes.can k.2) };

    ghost written = { λ k. written3 (A.Writes.written k.0) (B.Writes.written k.1) (C.Writes.written k.2) };

    ghost stands = { λ k bs tree. Stands3 (A.Writes.stands k.0 bs tree) (B.Writes.stands k.1 bs tree) (C.Writes.stands k.2 bs tree) };

    ghost one_back = { λ k bs tree held. back3 tree (A.FromRedisValue.one k.0) (A.Writes.can k.0) (A.Writes.written k.0) (A.Writes.stands k.0 bs tree) (B.FromRedisValue.one k.1) (B.Writes.can k.1) (B.Writes.written k.1) (B.Writes.stands k.1 bs tree) (C.FromRedisValue.one k.2) (C.Writes.can k.2) (C.Writes.written k.2) (C.Writes.stands k.2 bs tree) (A.Writes.one_back k.0 bs tree held) (B.Writes.one_back k.1 bs tree held) (C.Writes.one_back k.2 bs tree held) };

    ghost many_back = { λ k bs tree held. tuples_back tree 2 (tuple_one 2 (fields3 (A.FromRedisValue.one k.0) (B.FromRedisValue.one k.1) (C.FromRedisValue.one k.2))) (tuple_joined 2 (fields3 (A.FromRedisValue.one k.0) (B.FromRedisValue.one k.1) (C.FromRedisValue.one k.2))) (Can3 (A.Writes.can k.0) (B.Writes.can k.1) (C.Writes.can k.2)) (written3 (A.Writes.written k.0) (B.Writes.written k.1) (C.Writes.written k.2)) (Stands3 (A.Writes.stands k.0 bs tree) (B.Writes.stands k.1 bs tree) (C.Writes.stands k.2 bs tree)) (test3 (A.Writes.written k.0) (B.Writes.written k.1) (C.Writes.written k.2)) (back3 tree (A.FromRedisValue.one k.0) (A.Writes.can k.0) (A.Writes.written k.0) (A.Writes.stands k.0 bs tree) (B.FromRedisValue.one k.1) (B.Writes.can k.1) (B.Writes.written k.1) (B.Writes.stands k.1 bs tree) (C.FromRedisValue.one k.2) (C.Writes.can k.2) (C.Writes.written k.2) (C.Writes.stands k.2 bs tree) (A.Writes.one_back k.0 bs tree held) (B.Writes.one_back k.1 bs tree held) (C.Writes.one_back k.2 bs tree held)) };
}

impl<A: Writes, B: Writes, C: Writes, D: Writes> Writes for (A, B, C, D) {
    ghost Model = { A.Writes.Model × B.Writes.Model × C.Writes.Model × D.Writes.Model };

    ghost can = { λ k. Can4 (A.Writes.can k.0) (B.Writes.can k.1) (C.Writes.can k.2) (D.Writes.can k.3) };

    ghost written = { λ k. written4 (A.Writes.written k.0) (B.Writes.written k.1) (C.Writes.written k.2) (D.Writes.written k.3) };

    ghost stands = { λ k bs tree. Stands4 (A.Writes.stands k.0 bs tree) (B.Writes.stands k.1 bs tree) (C.Writes.stands k.2 bs tree) (D.Writes.stands k.3 bs tree) };

    ghost one_back = { λ k bs tree held. back4 tree (A.FromRedisValue.one k.0) (A.Writes.can k.0) (A.Writes.written k.0) (A.Writes.stands k.0 bs tree) (B.FromRedisValue.one k.1) (B.Writes.can k.1) (B.Writes.written k.1) (B.Writes.stands k.1 bs tree) (C.FromRedisValue.one k.2) (C.Writes.can k.2) (C.Writes.written k.2) (C.Writes.stands k.2 bs tree) (D.FromRedisValue.one k.3) (D.Writes.can k.3) (D.Writes.written k.3) (D.Writes.stands k.3 bs tree) (A.Writes.one_back k.0 bs tree held) (B.Writes.one_back k.1 bs tree held) (C.Writes.one_back k.2 bs tree held) (D.Writes.one_back k.3 bs tree held) };

    ghost many_back = { λ k bs tree held. tuples_back tree 3 (tuple_one 3 (fields4 (A.FromRedisValue.one k.0) (B.FromRedisValue.one k.1) (C.FromRedisValue.one k.2) (D.FromRedisValue.one k.3))) (tuple_joined 3 (fields4 (A.FromRedisValue.one k.0) (B.FromRedisValue.one k.1) (C.FromRedisValue.one k.2) (D.FromRedisValue.one k.3))) (Can4 (A.Writes.can k.0) (B.Writes.can k.1) (C.Writes.can k.2) (D.Writes.can k.3)) (written4 (A.Writes.written k.0) (B.Writes.written k.1) (C.Writes.written k.2) (D.Writes.written k.3)) (Stands4 (A.Writes.stands k.0 bs tree) (B.Writes.stands k.1 bs tree) (C.Writes.stands k.2 bs tree) (D.Writes.stands k.3 bs tree)) (test4 (A.Writes.written k.0) (B.Writes.written k.1) (C.Writes.written k.2) (D.Writes.written k.3)) (back4 tree (A.FromRedisValue.one k.0) (A.Writes.can k.0) (A.Writes.written k.0) (A.Writes.stands k.0 bs tree) (B.FromRedisValue.one k.1) (B.Writes.can k.1) (B.Writes.written k.1) (B.Writes.stands k.1 bs tree) (C.FromRedisValue.one k.2) (C.Writes.can k.2) (C.Writes.written k.2) (C.Writes.stands k.2 bs tree) (D.FromRedisValue.one k.3) (D.Writes.can k.3) (D.Writes.written k.3) (D.Writes.stands k.3 bs tree) (A.Writes.one_back k.0 bs tree held) (B.Writes.one_back k.1 bs tree held) (C.Writes.one_back k.2 bs tree held) (D.Writes.one_back k.3 bs tree held)) };
}
