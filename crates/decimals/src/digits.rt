ghost use Rattle.std.specs.Prelude.{◌≡◌, ◌-◌, ◌^◌, min};
ghost use Rattle.decimals.specs.Decimal.{front_digits};
ghost use Rattle.numerals.specs.Double.{after_digits};
ghost use Rattle.numerals.specs.Plain.{value_on};

use numerals::digits_end;

/// The digits at the front, and what is left after them.
pub fn split_digits(text: &[u8]) -> (&[u8], &[u8])
    ensures front { result.0.now ≡ front_digits text.now }
    ensures rest { result.1.now ≡ after_digits text.now }
{
    text.split_at(digits_end(text))
}

/// The number so far with more digits behind it, or the largest `u64` where it is larger than that.
pub fn add_digits(start: u64, digits: &[u8]) -> u64
    ensures { result ≡ min (value_on start digits.now) (2 ^ 64 - 1) }
{
    digits.iter().fold(start, |value, byte| {
        let digit = u64::from(byte.saturating_sub(b'0'));
        value.saturating_mul(10).saturating_add(digit)
    })
}
