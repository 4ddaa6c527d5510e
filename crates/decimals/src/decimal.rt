ghost use Rattle.decimals.specs.Decimal.{after_fraction, answer, fraction_in, is_word, number_in, power_in, read_float, said, scaled, some_clamped};
ghost use Rattle.decimals.specs.Whole.{whole_in};
ghost use Rattle.std.specs.Float.Parse.{lowercases_to};
ghost use Rattle.std.specs.Char.{to_ascii_lowercase};
ghost use Rattle.std.specs.Prelude.{◌≡◌, true, map};

use super::digits::{add_digits, split_digits};
use super::fault::FloatFault;
use super::tens::round_once;
use super::whole::{split_sign, with_sign};
use numerals::is_digits;

/// The float that `text` says to Rust's parser of floats, where one rounding gives it. `NotNumber` where it says none,
/// and `Inexact` where it is a word or has more digits or a larger power of ten than that.
pub fn read_float(text: &[u8]) -> Result<f64, FloatFault>
    ensures { result ≡ read_float text.now }
{
    let (negative, number) = split_sign(text, true);
    if is_word(number) {
        return Err(FloatFault::Inexact);
    }
    read_number(negative, number)
}

/// Whether `text` is `inf`, `infinity` or `nan`, in any letter case.
fn is_word(text: &[u8]) -> bool
    ensures { result ≡ is_word text.now }
{
    is_spelled(text, b"inf") || is_spelled(text, b"infinity") || is_spelled(text, b"nan")
}

/// Whether `text` is `word`, in any letter case.
fn is_spelled(text: &[u8], word: &[u8]) -> bool
    ensures { result ≡ lowercases_to text.now (map to_ascii_lowercase word.now) }
{
    text.eq_ignore_ascii_case(word)
}

/// The float of the number that `text` writes without a sign, with a minus where it is `negative`.
// kept: the sign goes with the digits, since what float they are is said of both; put on after, a minus would need laws of its own
fn read_number(negative: bool, text: &[u8]) -> Result<f64, FloatFault>
    ensures { result ≡ answer (said negative (number_in text.now)) }
{
    let (whole, rest) = split_digits(text);
    let (fraction, tail) = split_fraction(rest);
    read_scaled(negative, whole, fraction, tail)
}

/// The digits behind a point at the front, and what is left after them.
fn split_fraction(text: &[u8]) -> (&[u8], &[u8])
    ensures front { result.0.now ≡ fraction_in text.now }
    ensures rest { result.1.now ≡ after_fraction text.now }
{
    match text {
        [b'.', digits @ ..] => split_digits(digits),
        _ => (&[], text),
    }
}

/// The float of the digits `whole` and `fraction`, and of the power of ten after them.
fn read_scaled(
    negative: bool,
    whole: &[u8],
    fraction: &[u8],
    tail: &[u8],
) -> Result<f64, FloatFault>
    ensures { result ≡ answer (said negative (scaled whole.now fraction.now tail.now)) }
{
    if whole.is_empty() && fraction.is_empty() {
        return Err(FloatFault::NotNumber);
    }
    let power = read_power(tail).ok_or(FloatFault::NotNumber)?;
    let digits = add_digits(add_digits(0, whole), fraction);
    round_once(negative, digits, power - fraction.len() as i128)
}

/// The power of ten that `text` writes, or the nearest to it of magnitude below 2^64: 0 where nothing is left, and else
/// an e and a whole number.
fn read_power(text: &[u8]) -> Option<i128>
    ensures { result ≡ some_clamped (power_in text.now) }
{
    match text {
        [] => Some(0),
        [b'e' | b'E', exponent @ ..] => read_exponent(exponent),
        _ => None,
    }
}

/// The whole number that `text` writes, or the nearest to it of magnitude below 2^64.
fn read_exponent(text: &[u8]) -> Option<i128>
    ensures { result ≡ some_clamped (whole_in true text.now) }
{
    let (negative, digits) = split_sign(text, true);
    is_digits(digits).then(|| with_sign(negative, add_digits(0, digits)))
}
