ghost use Rattle.std.specs.Prelude.{◌≡◌, ◌≤◌, ◌↔◌, IsTrue, MatchBool, drop, false, length};
ghost use Rattle.std.specs.Fn.{FnReturnsAt};
ghost use Rattle.numerals.specs.Double.{BigNumber, Double, after_digits, after_sign, digits_then, is_big_number, is_double, is_empty, is_exponent, is_fraction, is_word, starts_with_digit};

/// Whether `content` is `inf`, `-inf`, `nan` or a decimal number.
#[tactic(auto, using(crate::proofs::DoubleRules::double_rule))]
pub fn is_double(content: &[u8]) -> bool
    ensures same { result ≡ is_double content.now }
    ensures rule { IsTrue result ↔ Double content.now }
{
    is_word(content) || is_decimal(content)
}

/// Whether `content` is one digit or more, with a sign or without.
#[tactic(auto, using(crate::proofs::DoubleRules::big_number_rule))]
pub fn is_big_number(content: &[u8]) -> bool
    ensures same { result ≡ is_big_number content.now }
    ensures rule { IsTrue result ↔ BigNumber content.now }
{
    is_digits(after_sign(content))
}

/// Whether `content` is a double's word.
fn is_word(content: &[u8]) -> bool
    ensures { result ≡ is_word content.now }
{
    matches!(content, b"inf" | b"-inf" | b"nan")
}

/// Whether `content` is a decimal number.
fn is_decimal(content: &[u8]) -> bool
    ensures { result ≡ digits_then is_fraction (after_sign content.now) }
{
    digits_then(after_sign(content), is_fraction)
}

/// Whether `content` can stand after the first digits of a double.
fn is_fraction(content: &[u8]) -> bool
    ensures { result ≡ is_fraction content.now }
{
    match content {
        [b'.', digits @ ..] => digits_then(digits, is_exponent),
        _ => is_exponent(content),
    }
}

/// Whether `content` is empty or an exponent.
fn is_exponent(content: &[u8]) -> bool
    ensures { result ≡ is_exponent content.now }
{
    match content {
        [] => true,
        [b'e' | b'E', power @ ..] => is_digits(after_sign(power)),
        _ => false,
    }
}

/// Whether `content` is one digit or more.
pub fn is_digits(content: &[u8]) -> bool
    ensures { result ≡ digits_then is_empty content.now }
{
    digits_then(content, |rest| rest.is_empty())
}

/// Whether `content` is one digit or more, and then what `rest` takes.
fn digits_then<F: Fn(&[u8]) -> bool>(content: &[u8], rest: F) -> bool
    requires { F.IsAlwaysCallable rest }
    ensures { MatchBool (starts_with_digit content.now) (FnReturnsAt F.Fn rest (after_digits content.now) result) (result ≡ false) }
{
    starts_with_digit(content) && rest(after_digits(content))
}

/// What is left after a sign, if there is one.
pub fn after_sign(content: &[u8]) -> &[u8]
    ensures { result.now ≡ after_sign content.now }
{
    match content {
        [b'+' | b'-', rest @ ..] => rest,
        _ => content,
    }
}

/// Whether a digit is the first of `content`.
fn starts_with_digit(content: &[u8]) -> bool
    ensures { result ≡ starts_with_digit content.now }
{
    matches!(content, [b'0'..=b'9', ..])
}

/// What is left after all digits at the front.
fn after_digits(content: &[u8]) -> &[u8]
    ensures { result.now ≡ after_digits content.now }
{
    &content[digits_end(content)..]
}

/// How many digits there are at the front.
pub fn digits_end(content: &[u8]) -> usize
    ensures within { result ≤ length content.now }
    ensures rest { drop result content.now ≡ after_digits content.now }
{
    content
        .iter()
        .position(|b| !b.is_ascii_digit())
        .unwrap_or(content.len())
}
