ghost use Rattle.std.specs.Prelude.{◌≡◌, Ok};
ghost use Rattle.reply.specs.Parts.{spot_of};
ghost use Rattle.reply.specs.View.{node_of};
ghost use Rattle.kinds.specs.Numbers.{between, double_float, double_integer, float_one, float_or, integer_float, integer_one, text_float, text_integer};

use crate::bounds::Bounds;
use crate::fault::{ElementReason, Fault};
use crate::fault_at::{refuse, refuse_at};
use crate::text::{check_utf8, text_of};
use decimals::{FloatFault, exact_float, read_double, read_float, read_whole, whole_of};
use reply::Reply;
use resp::Case;

/// The number, where it is within the bounds.
fn in_range(number: Option<i128>, bounds: Bounds) -> Option<i128>
    ensures { result ≡ between bounds number }
{
    number.filter(|value| bounds.contain(*value))
}

/// The float that was read, or a refusal of the reply for it.
fn float_or_refuse(reply: Reply<'_>, read: Result<f64, FloatFault>) -> Result<f64, Fault>
    ensures { result ≡ float_or (spot_of (node_of reply.entry)) Ok read }
{
    let spot = reply.spot();
    read.map_err(|fault| refuse_at(fault.into(), spot))
}

/// The integer that a text writes, as the text of the reply.
// kept: the reply goes along to be refused, here, below and for other kinds, since each definition gives its refusal with the place
fn text_integer(reply: Reply<'_>, text: &[u8], bounds: Bounds) -> Result<i128, Fault>
    ensures { result ≡ text_integer (spot_of (node_of reply.entry)) bounds text.now }
{
    let number = in_range(read_whole(text, bounds.are_signed()), bounds);
    number.ok_or(refuse(ElementReason::Text, reply))
}

/// The integer that a double's line is.
fn double_integer(reply: Reply<'_>, line: &[u8], bounds: Bounds) -> Result<i128, Fault>
    ensures { result ≡ double_integer (spot_of (node_of reply.entry)) bounds line.now }
{
    let x = float_or_refuse(reply, read_double(line))?;
    in_range(whole_of(x), bounds).ok_or(refuse(ElementReason::Range, reply))
}

/// The integer within the bounds that a reply is.
pub fn whole_number(reply: Reply<'_>, bounds: Bounds) -> Result<i128, Fault>
    ensures { result ≡ integer_one bounds (node_of reply.entry) }
{
    let inner = reply.unwrapped();
    match inner.case() {
        Case::Int => {
            let number = in_range(inner.integer().map(i128::from), bounds);
            number.ok_or(refuse(ElementReason::Range, reply))
        }
        Case::SimpleString => text_integer(reply, text_of(inner), bounds),
        Case::BulkString => {
            let text = text_of(inner);
            check_utf8(reply, text)?;
            text_integer(reply, text, bounds)
        }
        Case::Double => double_integer(reply, text_of(inner), bounds),
        _ => Err(refuse(ElementReason::Kind, reply)),
    }
}

/// The float that a text writes.
fn text_float(reply: Reply<'_>, text: &[u8]) -> Result<f64, Fault>
    ensures { result ≡ text_float (spot_of (node_of reply.entry)) text.now }
{
    float_or_refuse(reply, read_float(text))
}

/// The float that a double's line is.
// kept: tried in its place in `float_number`, but the proof of that did not close with the grammar of doubles open
fn double_float(reply: Reply<'_>, line: &[u8]) -> Result<f64, Fault>
    ensures { result ≡ double_float (spot_of (node_of reply.entry)) line.now }
{
    float_or_refuse(reply, read_double(line))
}

/// The float of an integer, where it is exact.
fn integer_float(number: Option<i64>) -> Option<f64>
    ensures { result ≡ integer_float number }
{
    exact_float(number?)
}

/// The float that a reply is.
// kept: one function for this and for `whole_number` would take its three readers as closures, and say no less
pub fn float_number(reply: Reply<'_>) -> Result<f64, Fault>
    ensures { result ≡ float_one (node_of reply.entry) }
{
    let inner = reply.unwrapped();
    match inner.case() {
        Case::Int => integer_float(inner.integer()).ok_or(refuse(ElementReason::Range, reply)),
        Case::SimpleString => text_float(reply, text_of(inner)),
        Case::BulkString => {
            let text = text_of(inner);
            check_utf8(reply, text)?;
            text_float(reply, text)
        }
        Case::Double => double_float(reply, text_of(inner)),
        _ => Err(refuse(ElementReason::Kind, reply)),
    }
}
