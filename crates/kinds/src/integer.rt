ghost use Rattle.std.specs.Prelude.{◌≡◌, ◌<◌, ◌^◌, ℕ, ℤ, pos, unsigned_abs, Some, None, Option, option_map, refl};
ghost use Rattle.kinds.specs.Numbers.{between, bounds_from, i64_bounds, i8_bounds, u16_bounds, u64_bounds, u8_bounds};
ghost use Rattle.kinds.specs.Rows.{byte_by};

use crate::bounds::Bounds;

/// A type of integers that a kind reads: those from its least to its greatest.
pub trait Width: Copy {
    // the least and the greatest
    ghost LOW: { ℤ };

    ghost HIGH: { ℤ };

    // the value that an integer between them is, and the integer that a value is
    ghost narrow: { ℤ → Self };

    ghost widen: { Self → ℤ };

    // which values are integers of a reply, which are signed and of 64 bits
    ghost in_i64: { Self → Type 0 };

    // what a byte of a byte string is, if it is taken apart
    ghost bytewise: { Option (ℕ → Self) };

    const LOW: i128;

    const HIGH: i128;

    // the value that a number is, if it is between them
    fn narrowed(number: i128) -> Option<Self>
        ensures { result ≡ option_map narrow (between (bounds_from LOW HIGH) (Some number)) };

    fn of_byte(byte: u8) -> Option<Self>
        ensures { result ≡ byte_by bytewise byte };

    // a value is what its integer is as a value
    ghost same: { (v : Self) → narrow (widen v) ≡ v };
}

/// The bounds of a type of integers.
pub(crate) fn bounds_of<T: Width>() -> Bounds
    ensures { result ≡ bounds_from T.LOW T.HIGH }
{
    Bounds {
        low: T::LOW,
        high: T::HIGH,
    }
}

// kept: an impl for each type, as for any trait: one that a macro writes isn't taken

impl Width for u8 {
    ghost LOW = { u8_bounds.low };

    ghost HIGH = { u8_bounds.high };

    ghost narrow = { unsigned_abs };

    ghost widen = { pos };

    ghost in_i64 = { λ m. m < 2 ^ 63 };

    ghost bytewise = { Some (λ b. b) };

    ghost same = { λ v. refl };

    const LOW: i128 = u8::MIN as i128;

    const HIGH: i128 = u8::MAX as i128;

    fn narrowed(number: i128) -> Option<u8> {
        u8::try_from(number).ok()
    }

    fn of_byte(byte: u8) -> Option<u8> {
        Some(byte)
    }
}

impl Width for u16 {
    ghost LOW = { u16_bounds.low };

    ghost HIGH = { u16_bounds.high };

    ghost narrow = { unsigned_abs };

    ghost widen = { pos };

    ghost in_i64 = { λ m. m < 2 ^ 63 };

    ghost bytewise = { None };

    ghost same = { λ v. refl };

    const LOW: i128 = u16::MIN as i128;

    const HIGH: i128 = u16::MAX as i128;

    fn narrowed(number: i128) -> Option<u16> {
        u16::try_from(number).ok()
    }

    fn of_byte(_byte: u8) -> Option<u16> {
        None
    }
}

impl Width for u64 {
    ghost LOW = { u64_bounds.low };

    ghost HIGH = { u64_bounds.high };

    ghost narrow = { unsigned_abs };

    ghost widen = { pos };

    ghost in_i64 = { λ m. m < 2 ^ 63 };

    ghost bytewise = { None };

    ghost same = { λ v. refl };

    const LOW: i128 = u64::MIN as i128;

    const HIGH: i128 = u64::MAX as i128;

    fn narrowed(number: i128) -> Option<u64> {
        u64::try_from(number).ok()
    }

    fn of_byte(_byte: u8) -> Option<u64> {
        None
    }
}

impl Width for i8 {
    ghost LOW = { i8_bounds.low };

    ghost HIGH = { i8_bounds.high };

    ghost narrow = { λ z. z };

    ghost widen = { λ z. z };

    ghost in_i64 = { λ _. Unit {0} };

    ghost bytewise = { None };

    ghost same = { λ v. refl };

    const LOW: i128 = i8::MIN as i128;

    const HIGH: i128 = i8::MAX as i128;

    fn narrowed(number: i128) -> Option<i8> {
        i8::try_from(number).ok()
    }

    fn of_byte(_byte: u8) -> Option<i8> {
        None
    }
}

impl Width for i64 {
    ghost LOW = { i64_bounds.low };

    ghost HIGH = { i64_bounds.high };

    ghost narrow = { λ z. z };

    ghost widen = { λ z. z };

    ghost in_i64 = { λ _. Unit {0} };

    ghost bytewise = { None };

    ghost same = { λ v. refl };

    const LOW: i128 = i64::MIN as i128;

    const HIGH: i128 = i64::MAX as i128;

    fn narrowed(number: i128) -> Option<i64> {
        i64::try_from(number).ok()
    }

    fn of_byte(_byte: u8) -> Option<i64> {
        None
    }
}
