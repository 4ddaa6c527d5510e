ghost use Rattle.std.specs.Prelude.{◌≡◌};
ghost use Rattle.reply.specs.Parts.{spot_of};
ghost use Rattle.reply.specs.View.{node_of};
ghost use Rattle.kinds.specs.Fault.{refused};

use crate::fault::{ElementFault, ElementReason, Fault};
use reply::{Reply, Spot};

/// A refusal at a place.
pub fn refuse_at(reason: ElementReason, spot: Spot) -> Fault
    ensures { result ≡ refused reason spot }
{
    Fault::Element(ElementFault { reason, spot })
}

/// A refusal of the reply.
pub fn refuse(reason: ElementReason, reply: Reply<'_>) -> Fault
    ensures { result ≡ refused reason (spot_of (node_of reply.entry)) }
{
    refuse_at(reason, reply.spot())
}
