ghost use Rattle.numerals.specs.Plain.{capped, plain_front, pushed};
ghost use Rattle.std.specs.Prelude.{◌≡◌};

/// The plain number that `content` writes, or the largest `u64` where it is larger than that.
/// `None` where `content` is no plain number.
pub fn plain_number(content: &[u8]) -> Option<u64>
    ensures { result ≡ capped content.now }
{
    if !has_plain_front(content) {
        return None;
    }
    content
        .iter()
        .try_fold(0, |value, byte| push_digit(value, *byte))
}

/// Whether there is a first byte, and it is no 0 before others.
fn has_plain_front(content: &[u8]) -> bool
    ensures { result ≡ plain_front content.now }
{
    !matches!(content, [] | [b'0', _, ..])
}

/// The number with one more digit behind it, or the largest `u64` where it is larger than that.
/// `None` where `byte` is no digit.
fn push_digit(value: u64, byte: u8) -> Option<u64>
    ensures { result ≡ pushed value byte }
{
    let digit = char::from(byte).to_digit(10)?;
    Some(value.saturating_mul(10).saturating_add(u64::from(digit)))
}
