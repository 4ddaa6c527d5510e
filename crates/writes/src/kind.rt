ghost use Rattle.std.specs.Prelude.{◌≡◌, ℕ, List};
ghost use Rattle.resp.specs.Node.{Node};
ghost use Rattle.resp.specs.Reply as wire;
ghost use Rattle.reply.specs.Held.{Held};
ghost use Rattle.kinds.specs.Rows.{many_by, many_of};
ghost use Rattle.writes.specs.Writing.{ManyBack, ReadsBack};
ghost use Rattle.writes.specs.ReadBack.{rows_back};

use kinds::{FromRedisValue, Rows};

/// A kind whose values are written: what is read back of them is what was written.
pub trait Writes: Rows {
    // what is written
    ghost Model: { Type 0 };

    // which models can be written
    ghost can: { Self → Model → Type 0 };

    // the reply that a model writes; any wire form of it will do
    ghost written: { Self → Model → wire.Reply };

    // what a value that was read from a tree in some bytes stands for
    ghost stands: { Self → List ℕ → Node → Self.Value → Model → Type 0 };

    ghost one_back: { (k : Self) (bs : List ℕ) (tree : Node) → Held bs tree → ReadsBack tree (Self.FromRedisValue.one k) (can k) (written k) (stands k bs tree) };

    ghost many_back: { (k : Self) (bs : List ℕ) (tree : Node) → Held bs tree → ManyBack tree (λ ns. many_of (Self.FromRedisValue.one k) (Self.Rows.flat k ns) (Self.Rows.more k) (Self.Rows.joined k) ns) (can k) (written k) (stands k bs tree) };
}

/// A kind of which each reply of a list is a row: what is read back of a list follows from what is read back of one.
pub trait WritesEach: Rows {
    // these four as of `Writes`
    ghost Model: { Type 0 };

    ghost can: { Self → Model → Type 0 };

    ghost written: { Self → Model → wire.Reply };

    ghost stands: { Self → List ℕ → Node → Self.Value → Model → Type 0 };

    ghost one_back: { (k : Self) (bs : List ℕ) (tree : Node) → Held bs tree → ReadsBack tree (Self.FromRedisValue.one k) (can k) (written k) (stands k bs tree) };

    // a list is never cut
    ghost each: { (k : Self) (ns : List Node) → many_of (Self.FromRedisValue.one k) (Self.Rows.flat k ns) (Self.Rows.more k) (Self.Rows.joined k) ns ≡ many_by (Self.FromRedisValue.one k) ns };
}

impl<K: WritesEach> Writes for K {
    ghost Model = { K.WritesEach.Model };

    ghost can = { K.WritesEach.can };

    ghost written = { K.WritesEach.written };

    ghost stands = { K.WritesEach.stands };

    ghost one_back = { K.WritesEach.one_back };

    ghost many_back = { λ k bs tree held. rows_back tree (K.FromRedisValue.one k) (λ ns. many_of (K.FromRedisValue.one k) (K.Rows.flat k ns) (K.Rows.more k) (K.Rows.joined k) ns) (K.WritesEach.can k) (K.WritesEach.written k) (K.WritesEach.stands k bs tree) (K.WritesEach.each k) (K.WritesEach.one_back k bs tree held) };
}
