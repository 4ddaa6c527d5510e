ghost use Rattle.std.specs.Prelude.{None, refl};
ghost use Rattle.kinds.specs.Tuples.{fields2, fields3, fields4, tuple_flat, tuple_joined};

use crate::each::read_next;
use crate::fault::Fault;
use crate::kind::{FromRedisValue, Rows};
use crate::tuple::{Tuple, tuple_flat, tuple_join};
use reply::{Items, Reply, Spot};

// kept: an impl for each count of parts, here and wherever tuples are spoken of: no type stands for tuples of any count, and
// an impl that a macro writes isn't taken; one impl of `Rows` over all tuples would conflict with that over what is `Single`

impl<A: FromRedisValue, B: FromRedisValue> Tuple for (A, B) {
    type Value = (A::Value, B::Value);

    ghost BESIDE = { 1 };

    const BESIDE: usize = 1;

    ghost fields = { λ k. fields2 (A.FromRedisValue.one k.0) (B.FromRedisValue.one k.1) };

    fn read_fields(&self, items: &mut Items<'_>) -> Result<(A::Value, B::Value), Fault> {
        let first = read_next(&self.0, items)?;
        let second = read_next(&self.1, items)?;
        Ok((first, second))
    }
}

impl<A: FromRedisValue, B: FromRedisValue> Rows for (A, B) {
    ghost flat = { λ _. tuple_flat 1 };

    ghost more = { λ _. 1 };

    ghost joined = { λ k. tuple_joined 1 (fields2 (A.FromRedisValue.one k.0) (B.FromRedisValue.one k.1)) };

    ghost bytewise = { λ _. None };

    ghost none = { λ _ _. refl };

    fn is_flat(&self, items: Items<'_>) -> bool {
        tuple_flat(self, items)
    }

    fn join(&self, first: Spot, items: &mut Items<'_>) -> Result<(A::Value, B::Value), Fault> {
        tuple_join(self, first, items)
    }

    fn of_byte(&self, _byte: u8) -> Option<(A::Value, B::Value)> {
        None
    }
}

impl<A: FromRedisValue, B: FromRedisValue, C: FromRedisValue> Tuple for (A, B, C) {
    type Value = (A::Value, B::Value, C::Value);

    ghost BESIDE = { 2 };

    const BESIDE: usize = 2;

    ghost fields = { λ k. fields3 (A.FromRedisValue.one k.0) (B.FromRedisValue.one k.1) (C.FromRedisValue.one k.2) };

    fn read_fields(&self, items: &mut Items<'_>) -> Result<(A::Value, B::Value, C::Value), Fault> {
        let first = read_next(&self.0, items)?;
        let second = read_next(&self.1, items)?;
        let third = read_next(&self.2, items)?;
        Ok((first, second, third))
    }
}

impl<A: FromRedisValue, B: FromRedisValue, C: FromRedisValue> Rows for (A, B, C) {
    ghost flat = { λ _. tuple_flat 2 };

    ghost more = { λ _. 2 };

    ghost joined = { λ k. tuple_joined 2 (fields3 (A.FromRedisValue.one k.0) (B.FromRedisValue.one k.1) (C.FromRedisValue.one k.2)) };

    ghost bytewise = { λ _. None };

    ghost none = { λ _ _. refl };

    fn is_flat(&self, items: Items<'_>) -> bool {
        tuple_flat(self, items)
    }

    fn join(
        &self,
        first: Spot,
        items: &mut Items<'_>,
    ) -> Result<(A::Value, B::Value, C::Value), Fault> {
        tuple_join(self, first, items)
    }

    fn of_byte(&self, _byte: u8) -> Option<(A::Value, B::Value, C::Value)> {
        None
    }
}

impl<A: FromRedisValue, B: FromRedisValue, C: FromRedisValue, D: FromRedisValue> Tuple
    for (A, B, C, D) {
    type Value = (A::Value, B::Value, C::Value, D::Value);

    ghost BESIDE = { 3 };

    const BESIDE: usize = 3;

    ghost fields = { λ k. fields4 (A.FromRedisValue.one k.0) (B.FromRedisValue.one k.1) (C.FromRedisValue.one k.2) (D.FromRedisValue.one k.3) };

    fn read_fields(
        &self,
        items: &mut Items<'_>,
    ) -> Result<(A::Value, B::Value, C::Value, D::Value), Fault> {
        let first = read_next(&self.0, items)?;
        let second = read_next(&self.1, items)?;
        let third = read_next(&self.2, items)?;
        let fourth = read_next(&self.3, items)?;
        Ok((first, second, third, fourth))
    }
}

impl<A: FromRedisValue, B: FromRedisValue, C: FromRedisValue, D: FromRedisValue> Rows
    for (A, B, C, D) {
    ghost flat = { λ _. tuple_flat 3 };

    ghost more = { λ _. 3 };

    ghost joined = { λ k. tuple_joined 3 (fields4 (A.FromRedisValue.one k.0) (B.FromRedisValue.one k.1) (C.FromRedisValue.one k.2) (D.FromRedisValue.one k.3)) };

    ghost bytewise = { λ _. None };

    ghost none = { λ _ _. refl };

    fn is_flat(&self, items: Items<'_>) -> bool {
        tuple_flat(self, items)
    }

    fn join(
        &self,
        first: Spot,
        items: &mut Items<'_>,
    ) -> Result<(A::Value, B::Value, C::Value, D::Value), Fault> {
        tuple_join(self, first, items)
    }

    fn of_byte(&self, _byte: u8) -> Option<(A::Value, B::Value, C::Value, D::Value)> {
        None
    }
}
