ghost use Rattle.std.specs.Prelude.{◌≡◌};
ghost use Rattle.reply.specs.Parts.{spot_of};
ghost use Rattle.reply.specs.View.{node_of};
ghost use Rattle.kinds.specs.Plain.{bool_one, digit_bool, is_true, nonzero, text_one, unit_one, value_one};

use crate::fault::{ElementReason, Fault};
use crate::fault_at::refuse;
use crate::kind::{FromRedisValue, Single};
use crate::text::{check_utf8, text_of};
use reply::{Part, Reply, Spot};
use resp::Case;

/// Text, in place.
#[derive(Clone, Copy)]
pub struct Text;

impl FromRedisValue for Text {
    type Value = Part;

    ghost one = { λ _. text_one };

    fn from_redis_value(&self, reply: Reply<'_>) -> Result<Part, Fault> {
        let inner = reply.unwrapped();
        match inner.case() {
            Case::BulkString => {
                check_utf8(reply, text_of(inner))?;
                Ok(inner.text_part())
            }
            Case::SimpleString | Case::Okay | Case::VerbatimString | Case::Int => {
                Ok(inner.text_part())
            }
            _ => Err(refuse(ElementReason::Kind, reply)),
        }
    }
}

impl Single for Text {}

/// A boolean.
#[derive(Clone, Copy)]
pub struct Bool;

impl FromRedisValue for Bool {
    type Value = bool;

    ghost one = { λ _. bool_one };

    fn from_redis_value(&self, reply: Reply<'_>) -> Result<bool, Fault> {
        let inner = reply.unwrapped();
        match inner.case() {
            Case::Nil => Ok(false),
            Case::Okay => Ok(true),
            Case::Int => Ok(is_nonzero(inner.integer())),
            Case::Boolean => Ok(is_true(text_of(inner))),
            Case::SimpleString | Case::BulkString => digit_bool(reply, text_of(inner)),
            _ => Err(refuse(ElementReason::Kind, reply)),
        }
    }
}

fn is_nonzero(number: Option<i64>) -> bool
    ensures { result ≡ nonzero number }
{
    number.is_some_and(|value| value != 0)
}

/// Whether it is the line of true.
fn is_true(line: &[u8]) -> bool
    ensures { result ≡ is_true line.now }
{
    matches!(line, [b't', ..])
}

/// The boolean that the digits 1 and 0 are, as the text of the reply.
fn digit_bool(reply: Reply<'_>, text: &[u8]) -> Result<bool, Fault>
    ensures { result ≡ digit_bool (spot_of (node_of reply.entry)) text.now }
{
    match text {
        [b'1'] => Ok(true),
        [b'0'] => Ok(false),
        _ => Err(refuse(ElementReason::Text, reply)),
    }
}

impl Single for Bool {}

/// No value: any reply but an error.
#[derive(Clone, Copy)]
pub struct Nothing;

impl FromRedisValue for Nothing {
    type Value = ();

    ghost one = { λ _. unit_one };

    fn from_redis_value(&self, reply: Reply<'_>) -> Result<(), Fault> {
        match reply.case() {
            Case::ServerError => Err(refuse(ElementReason::Kind, reply)),
            _ => Ok(()),
        }
    }
}

impl Single for Nothing {}

/// Any reply, as its place.
#[derive(Clone, Copy)]
pub struct Value;

impl FromRedisValue for Value {
    type Value = Spot;

    ghost one = { λ _. value_one };

    fn from_redis_value(&self, reply: Reply<'_>) -> Result<Spot, Fault> {
        Ok(reply.spot())
    }
}

impl Single for Value {}
