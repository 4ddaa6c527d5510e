ghost use Rattle.std.specs.Prelude.{◌≡◌, false, refl};
ghost use Rattle.reply.specs.View.{node_of};
ghost use Rattle.kinds.specs.Numbers.{Within, bounds_from, float_one, integer_one, narrowed, same_number};
ghost use Rattle.kinds.specs.Rows.{first_by};
ghost use Rattle.kinds.specs.Within.{number_equality};

use crate::bounds::Bounds;
use crate::each::join_one;
use crate::fault::Fault;
use crate::integer::{Width, bounds_of};
use crate::kind::{FromRedisValue, Rows, Single};
use crate::number::{float_number, whole_number};
use crate::same::{Same, same_read};
use reply::{Items, Reply, Spot};
use std::marker::PhantomData;

/// The integer that a reply is: it lies within the bounds.
// kept: that follows from what `whole_number` answers, and is shown here once in place of at each of its ends
fn bounded(reply: Reply<'_>, bounds: Bounds) -> Result<i128, Fault>
    ensures same { result ≡ integer_one bounds (node_of reply.entry) }
    ensures within { Within bounds result }
{
    whole_number(reply, bounds)
}

/// Whether two replies read as one number.
fn same_number(a: Reply<'_>, b: Reply<'_>, bounds: Bounds) -> bool
    ensures { result ≡ same_number bounds (node_of a.entry) (node_of b.entry) }
{
    same_read(whole_number(a, bounds), whole_number(b, bounds))
}

/// An integer of the type T.
#[derive(Clone, Copy)]
pub struct Integer<T>(PhantomData<T>);

pub type U8 = Integer<u8>;

pub const U8: U8 = Integer(PhantomData);

pub type U16 = Integer<u16>;

pub const U16: U16 = Integer(PhantomData);

pub type U64 = Integer<u64>;

pub const U64: U64 = Integer(PhantomData);

pub type I8 = Integer<i8>;

pub const I8: I8 = Integer(PhantomData);

pub type I64 = Integer<i64>;

pub const I64: I64 = Integer(PhantomData);

impl<T: Width> FromRedisValue for Integer<T> {
    type Value = T;

    ghost one = { λ _ n. narrowed T.narrow (integer_one (bounds_from T.LOW T.HIGH) n) };

    fn from_redis_value(&self, reply: Reply<'_>) -> Result<T, Fault> {
        let number = bounded(reply, bounds_of::<T>())?;
        Ok(T::narrowed(number).unwrap())
    }
}

impl<T: Width> Same for Integer<T> {
    ghost alike = { λ _. same_number (bounds_from T.LOW T.HIGH) };

    ghost equality = { λ k. number_equality (bounds_from T.LOW T.HIGH) };

    fn is_same(&self, a: Reply<'_>, b: Reply<'_>) -> bool {
        same_number(a, b, bounds_of::<T>())
    }
}

// kept: beside that for `Single`, since a byte string is a list of integers of eight bits
impl<T: Width> Rows for Integer<T> {
    ghost flat = { λ _ _. false };

    ghost more = { λ _. 0 };

    ghost joined = { λ k _. first_by (Self.FromRedisValue.one k) };

    ghost bytewise = { λ _. T.bytewise };

    ghost none = { λ _ _. refl };

    fn is_flat(&self, _items: Items<'_>) -> bool {
        false
    }

    fn join(&self, _first: Spot, items: &mut Items<'_>) -> Result<T, Fault> {
        join_one(self, items)
    }

    fn of_byte(&self, byte: u8) -> Option<T> {
        T::of_byte(byte)
    }
}

/// A float of 64 bits.
#[derive(Clone, Copy)]
pub struct F64;

impl FromRedisValue for F64 {
    type Value = f64;

    ghost one = { λ _. float_one };

    fn from_redis_value(&self, reply: Reply<'_>) -> Result<f64, Fault> {
        float_number(reply)
    }
}

impl Single for F64 {}
