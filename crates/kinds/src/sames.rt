ghost use Rattle.std.specs.Prelude.{◌≡◌, true};
ghost use Rattle.std.specs.Str.{bytes_eq};
ghost use Rattle.reply.specs.View.{node_of};
ghost use Rattle.kinds.specs.Same.{same2, same3, same4, same_bool, same_key, same_option, same_parts, same_text, text_key};
ghost use Rattle.kinds.specs.Equalities.{bool_equality, always_equality, text_equality, option_equality, equality2, parts_equality, equality3, equality4};

use crate::kind::FromRedisValue;
use crate::optional::Optional;
use crate::plain::{Bool, Nothing, Text};
use crate::same::{Same, same_next, same_read};
use reply::Reply;
use resp::Case;

impl Same for Bool {
    ghost alike = { λ _. same_bool };

    ghost equality = { λ k. bool_equality };

    fn is_same(&self, a: Reply<'_>, b: Reply<'_>) -> bool {
        same_read(self.from_redis_value(a), self.from_redis_value(b))
    }
}

impl Same for Nothing {
    ghost alike = { λ _ _ _. true };

    ghost equality = { λ k. always_equality };

    fn is_same(&self, _a: Reply<'_>, _b: Reply<'_>) -> bool {
        true
    }
}

/// Whether two texts are the same bytes.
fn same_texts(a: Reply<'_>, b: Reply<'_>) -> bool
    ensures { result ≡ same_key (text_key (node_of a.entry)) (text_key (node_of b.entry)) }
{
    a.text() == b.text()
}

impl Same for Text {
    ghost alike = { λ _. same_text };

    ghost equality = { λ k. text_equality };

    fn is_same(&self, a: Reply<'_>, b: Reply<'_>) -> bool {
        same_texts(a.unwrapped(), b.unwrapped())
    }
}

impl<K: Same> Same for Optional<K> {
    ghost alike = { λ k. same_option (K.Same.alike k.0) };

    ghost equality = { λ k. option_equality (K.Same.alike k.0) (K.Same.equality k.0) };

    fn is_same(&self, a: Reply<'_>, b: Reply<'_>) -> bool {
        let x = a.unwrapped();
        let y = b.unwrapped();
        match (x.case(), y.case()) {
            (Case::Nil, Case::Nil) => true,
            (Case::Nil, _) | (_, Case::Nil) => false,
            _ => self.0.is_same(x, y),
        }
    }
}

impl<A: Same, B: Same> Same for (A, B) {
    ghost alike = { λ k. same_parts (same2 (A.Same.alike k.0) (B.Same.alike k.1)) };

    ghost equality = { λ k. parts_equality (same2 (A.Same.alike k.0) (B.Same.alike k.1)) (equality2 (A.Same.alike k.0) (B.Same.alike k.1) (A.Same.equality k.0) (B.Same.equality k.1)) };

    fn is_same(&self, a: Reply<'_>, b: Reply<'_>) -> bool {
        let mut xs = a.unwrapped().flat();
        let mut ys = b.unwrapped().flat();
        same_next(&self.0, &mut xs, &mut ys) && same_next(&self.1, &mut xs, &mut ys)
    }
}

impl<A: Same, B: Same, C: Same> Same for (A, B, C) {
    ghost alike = { λ k. same_parts (same3 (A.Same.alike k.0) (B.Same.alike k.1) (C.Same.alike k.2)) };

    ghost equality = { λ k. parts_equality (same3 (A.Same.alike k.0) (B.Same.alike k.1) (C.Same.alike k.2)) (equality3 (A.Same.alike k.0) (B.Same.alike k.1) (C.Same.alike k.2) (A.Same.equality k.0) (B.Same.equality k.1) (C.Same.equality k.2)) };

    fn is_same(&self, a: Reply<'_>, b: Reply<'_>) -> bool {
        let mut xs = a.unwrapped().flat();
        let mut ys = b.unwrapped().flat();
        same_next(&self.0, &mut xs, &mut ys)
            && same_next(&self.1, &mut xs, &mut ys)
            && same_next(&self.2, &mut xs, &mut ys)
    }
}

impl<A: Same, B: Same, C: Same, D: Same> Same for (A, B, C, D) {
    ghost alike = { λ k. same_parts (same4 (A.Same.alike k.0) (B.Same.alike k.1) (C.Same.alike k.2) (D.Same.alike k.3)) };

    ghost equality = { λ k. parts_equality (same4 (A.Same.alike k.0) (B.Same.alike k.1) (C.Same.alike k.2) (D.Same.alike k.3)) (equality4 (A.Same.alike k.0) (B.Same.alike k.1) (C.Same.alike k.2) (D.Same.alike k.3) (A.Same.equality k.0) (B.Same.equality k.1) (C.Same.equality k.2) (D.Same.equality k.3)) };

    fn is_same(&self, a: Reply<'_>, b: Reply<'_>) -> bool {
        let mut xs = a.unwrapped().flat();
        let mut ys = b.unwrapped().flat();
        same_next(&self.0, &mut xs, &mut ys)
            && same_next(&self.1, &mut xs, &mut ys)
            && same_next(&self.2, &mut xs, &mut ys)
            && same_next(&self.3, &mut xs, &mut ys)
    }
}
