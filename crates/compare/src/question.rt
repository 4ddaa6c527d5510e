ghost use Rattle.std.specs.Prelude.{◌≡◌, MatchResult};
ghost use Rattle.compare.specs.Answering.{Refused, SpellsAs, refusal_of};
ghost use Rattle.compare.specs.declared.question.Refusal.TheVariants.{Bad};

use super::answer::BadLine;
use super::hex::{HexError, decode};
use super::line::cut_at_tab;
use super::shape::Shape;
use std::alloc::Global;

/// What a line asks: that the bytes be read as the shape says.
#[derive(Drop)]
pub struct Question {
    pub shape: Shape,
    pub bytes: Vec<u8>,
}

/// Why a line gives no question.
#[derive(Clone, Copy)]
pub enum Refusal {
    Bad(BadLine),
    NoMemory,
}

impl From<BadLine> for Refusal {
    ghost from_gives = { λ why r. r ≡ Bad why };

    fn from(why: BadLine) -> Refusal {
        Refusal::Bad(why)
    }
}

impl From<HexError> for Refusal {
    ghost from_gives = { λ e r. r ≡ refusal_of e };

    fn from(e: HexError) -> Refusal {
        match e {
            HexError::Odd => Refusal::Bad(BadLine::OddHex),
            HexError::NotHex => Refusal::Bad(BadLine::NotHex),
            HexError::NoMemory => Refusal::NoMemory,
        }
    }
}

impl Question {
    /// The question of a line, given without its newline.
    pub fn read(heap: Global, line: &[u8]) -> Result<Question, Refusal>
        ensures { MatchResult result (λ q. SpellsAs q.shape line.now q.bytes.items) (λ e. Refused line.now e) }
    {
        let (name, text) = cut_at_tab(line).ok_or(BadLine::NoTab)?;
        let shape = Shape::try_from(name)?;
        let bytes = decode(heap, text)?;
        Ok(Question { shape, bytes })
    }
}
