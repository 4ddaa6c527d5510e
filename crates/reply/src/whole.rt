ghost use Rattle.std.specs.Prelude.{◌≡◌, IfOk};
ghost use Rattle.resp.specs.Answer.{answer};
ghost use Rattle.reply.specs.Checks.{Shows, fault_of};
ghost use Rattle.reply.specs.View.{node_of};

use crate::view::Reply;
use resp::{WireFault, walk};

/// The whole reply that begins the bytes; or why none does, and where.
pub fn check(bytes: &[u8]) -> Result<Reply<'_>, WireFault>
    ensures fault { fault_of result ≡ fault_of (answer bytes.now) }
    ensures tree { IfOk result (λ reply. Shows bytes.now (node_of reply)) }
    ensures bytes { IfOk result (λ reply. reply.bytes ≡ bytes.entry) }
{
    walk(bytes)?;
    Ok(Reply {
        bytes,
        at: 0,
        pair: false,
    })
}
