ghost use Rattle.std.specs.Prelude.{◌≡◌, ℕ, MatchOption, MatchResult};
ghost use Rattle.compare.specs.declared.hex.HexError.TheVariants.{NoMemory};
ghost use Rattle.compare.specs.Hex.{Writes, SpellsAt, Spelled, Unspelled};

use std::alloc::{AllocError, AllocFailed, Global};

/// Why a text gives no bytes.
// kept: reading hex knows nothing of lines; and what the library's `hex` answers would have to be shown to be what a text spells,
// which is as long as this
#[derive(Clone, Copy, PartialEq, Eq, Debug)]
pub enum HexError {
    /// An odd count of digits.
    Odd,
    /// A character that is no hex digit.
    NotHex,
    NoMemory,
}

impl From<AllocError> for HexError {
    ghost from_gives = { λ _ r. r ≡ NoMemory };

    fn from(_e: AllocError) -> HexError {
        HexError::NoMemory
    }
}

impl<T: Drop> From<AllocFailed<T>> for HexError {
    ghost from_gives = { λ _ r. r ≡ NoMemory };

    fn from(_e: AllocFailed<T>) -> HexError {
        HexError::NoMemory
    }
}

/// The value of a hex digit, of either case.
fn digit(c: u8) -> Option<u8>
    ensures { MatchOption result ((v : ℕ) → Writes c v → ⊥) (λ v. Writes c v) }
{
    char::from(c).to_digit(16).map(|v| v as u8)
}

/// The byte that two hex digits spell.
fn byte(pair: &[u8; 2]) -> Option<u8>
    ensures { MatchOption result ((b : ℕ) → SpellsAt pair.now 0 b → ⊥) (λ b. SpellsAt pair.now 0 b) }
{
    let [high, low] = *pair;
    Some(digit(high)? * 16 + digit(low)?)
}

/// The bytes that a text spells, two hex digits each.
pub fn decode(heap: Global, text: &[u8]) -> Result<Vec<u8>, HexError>
    ensures { MatchResult result (λ v. Spelled text.now v.items) (λ e. Unspelled text.now e) }
{
    let (pairs, []) = text.as_chunks::<2>() else {
        return Err(HexError::Odd);
    };
    let mut bytes = Vec::with_capacity(heap, pairs.len())?;
    for pair in pairs {
        let byte = byte(pair).ok_or(HexError::NotHex)?;
        bytes.push(byte)?;
    }
    Ok(bytes)
}
