ghost use Rattle.decimals.specs.Whole.{is_minus, magnitude_in, natural_capped, pushed, whole_capped, with_sign};
ghost use Rattle.std.specs.Prelude.{◌≡◌};

/// The whole number that `text` writes: a plus or, where numbers are `signed`, a minus, if there is one, and one digit
/// or more. `None` where it writes none, or one whose magnitude is 2^64 or more.
pub fn read_whole(text: &[u8], signed: bool) -> Option<i128>
    ensures { result ≡ whole_capped signed text.now }
{
    let (negative, digits) = split_sign(text, signed);
    read_digits(digits).map(|n| with_sign(negative, n))
}

/// `n`, or `-n` where it is `negative`.
pub fn with_sign(negative: bool, n: u64) -> i128
    ensures { result ≡ with_sign negative n }
{
    let n = i128::from(n);
    if negative { -n } else { n }
}

/// Whether `text` begins with a minus that is taken, and what stands after the sign, if there is one.
pub fn split_sign(text: &[u8], signed: bool) -> (bool, &[u8])
    ensures minus { result.0 ≡ is_minus signed text.now }
    ensures magnitude { result.1.now ≡ magnitude_in signed text.now }
{
    match text {
        [b'-', rest @ ..] if signed => (true, rest),
        [b'+', rest @ ..] => (false, rest),
        _ => (false, text),
    }
}

/// The number that `digits` write. `None` where they aren't one digit or more, or the number is 2^64 or more.
fn read_digits(digits: &[u8]) -> Option<u64>
    ensures { result ≡ natural_capped digits.now }
{
    if digits.is_empty() {
        return None;
    }
    digits
        .iter()
        .try_fold(0, |value, byte| push_digit(value, *byte))
}

/// The number with one more digit behind it. `None` where `byte` is no digit, or the number is 2^64 or more.
// kept: one function for this and for the digits that are capped is no plainer: they share the digit and the ten alone,
// and each answers a number too large in its own way
fn push_digit(value: u64, byte: u8) -> Option<u64>
    ensures { result ≡ pushed value byte }
{
    let digit = char::from(byte).to_digit(10)?;
    value.checked_mul(10)?.checked_add(u64::from(digit))
}
