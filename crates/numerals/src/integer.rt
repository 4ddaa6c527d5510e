ghost use Rattle.numerals.specs.Integer.{integer, minus_of, unsigned_of};
ghost use Rattle.std.specs.Prelude.{◌≡◌};

use super::plain::plain_number;

/// The integer that `content` writes: a plain number, or a minus and a plain number other than 0.
/// `None` where it writes none, or one that 64 bits don't hold.
pub fn read_integer(content: &[u8]) -> Option<i64>
    ensures { result ≡ integer content.now }
{
    match content {
        [b'-', digits @ ..] => minus(digits),
        _ => unsigned(content),
    }
}

/// The integer that `digits` write.
fn unsigned(digits: &[u8]) -> Option<i64>
    ensures { result ≡ unsigned_of digits.now }
{
    i64::try_from(plain_number(digits)?).ok()
}

/// The integer that `digits` write after a minus.
fn minus(digits: &[u8]) -> Option<i64>
    ensures { result ≡ minus_of digits.now }
{
    match plain_number(digits)? {
        0 => None,
        n => 0_i64.checked_sub_unsigned(n),
    }
}
