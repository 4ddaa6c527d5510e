ghost use Rattle.std.specs.Prelude.{◌≡◌, MatchResult, ◌≢◌};
ghost use Rattle.compare.specs.Names.{name_of};
ghost use Rattle.compare.specs.declared.shape.Shape.{Shape};
ghost use Rattle.compare.specs.declared.answer.BadLine.TheVariants.{UnknownShape};

use super::answer::BadLine;

/// What the bytes of a question are to be read as.
#[derive(Clone, Copy, PartialEq, Eq, Debug)]
pub enum Shape {
    /// A reply as it comes from the wire.
    Wire,
}

/// The shape of that name.
impl TryFrom<&[u8]> for Shape {
    type Error = BadLine;

    ghost try_from_gives = { λ name r. MatchResult r (λ s. name.now ≡ name_of s) (λ e. (e ≡ UnknownShape) × ((s : Shape) → name.now ≢ name_of s)) };

    fn try_from(name: &[u8]) -> Result<Shape, BadLine> {
        match name {
            b"wire" => Ok(Shape::Wire),
            _ => Err(BadLine::UnknownShape),
        }
    }
}
