ghost use Rattle.std.specs.Prelude.{◌≡◌, ◌≢◌, Ok};
ghost use Rattle.utf8.specs.Scan.{ill_formed};
ghost use Rattle.resp.specs.declared.case.Case.TheVariants.{Int};
ghost use Rattle.reply.specs.Parts.{spot_of};
ghost use Rattle.reply.specs.View.{node_of};
ghost use Rattle.kinds.specs.Plain.{utf8_by};
ghost use Rattle.kinds.specs.Texts.{case_at, text_in};

use crate::fault::{ElementReason, Fault};
use crate::fault_at::refuse;
use reply::Reply;

/// The text of a reply other than an integer.
// kept: its clause speaks of the kinds' `text_in`, which `reply` doesn't know
pub fn text_of<'a>(reply: Reply<'a>) -> &'a [u8]
    ensures { case_at (node_of reply.entry) ≢ Int → result.now ≡ text_in (node_of reply.entry) }
{
    reply.text()
}

/// Whether a text is UTF-8; else a refusal of the reply.
pub(crate) fn check_utf8(reply: Reply<'_>, text: &[u8]) -> Result<(), Fault>
    ensures { result ≡ utf8_by (spot_of (node_of reply.entry)) (ill_formed text.now) (Ok tt) }
{
    // kept: the place is what there is where it is refused, so that `ok_or` would be the other way round
    match utf8::ill_formed(text) {
        None => Ok(()),
        Some(_) => Err(refuse(ElementReason::NotUtf8, reply)),
    }
}
