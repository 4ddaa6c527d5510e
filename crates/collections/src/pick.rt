ghost use Rattle.std.specs.Prelude.{◌≡◌};
ghost use Rattle.reply.specs.View.{node_of};
ghost use Rattle.collections.specs.Picks.{row_at};

use crate::collection::Collection;
use crate::table::nth_row;
use kinds::{Fault, IntakeReason};
use reply::{Reply, Spot};

/// The row `i` of the collection that begins at a place of the reply.
pub fn row_at<C: Collection>(
    shape: &C,
    reply: Reply<'_>,
    spot: Spot,
    i: usize,
) -> Result<C::Row, Fault>
    ensures { result ≡ row_at (C.Collection.rows shape.now) spot i (node_of reply.entry) }
{
    let none = Fault::Intake(IntakeReason::Pick);
    let whole = reply.find(spot).ok_or(none)?;
    nth_row(shape, whole, i)?.ok_or(none)
}
