ghost use Rattle.std.specs.Prelude.{◌≡◌, Some};
ghost use Rattle.resp.specs.Cases.{Cased, case_by, case_in};

use crate::kind::{Kind, kind_of};

/// The cases of a reply, whichever its wire form.
#[derive(Clone, Copy, PartialEq, Eq, Debug)]
pub enum Case {
    Nil,
    Int,
    BulkString,
    Array,
    SimpleString,
    Okay,
    Map,
    Attribute,
    Set,
    Double,
    Boolean,
    VerbatimString,
    BigNumber,
    Push,
    ServerError,
}

/// The case of a kind's reply, by the line after its first byte.
fn case_by(kind: Kind, line: &[u8]) -> Case
    ensures { Some result ≡ case_by (Some kind) line.now }
{
    match kind {
        Kind::SimpleString if line.starts_with(b"OK\r\n") => Case::Okay,
        Kind::BulkString | Kind::Array if line.starts_with(b"-") => Case::Nil,
        Kind::SimpleString => Case::SimpleString,
        Kind::BulkString => Case::BulkString,
        Kind::Array => Case::Array,
        Kind::SimpleError | Kind::BulkError => Case::ServerError,
        Kind::Integer => Case::Int,
        Kind::Null => Case::Nil,
        Kind::Boolean => Case::Boolean,
        Kind::Double => Case::Double,
        Kind::BigNumber => Case::BigNumber,
        Kind::VerbatimString => Case::VerbatimString,
        Kind::Map => Case::Map,
        Kind::Attribute => Case::Attribute,
        Kind::Set => Case::Set,
        Kind::Push => Case::Push,
    }
}

/// The case by the first bytes alone.
// kept: what `case_of` says of the tree follows from this, and is shown once
fn first_case(reply: &[u8]) -> Option<Case>
    ensures { result ≡ case_in reply.now }
{
    let [first, line @ ..] = reply else {
        return None;
    };
    Some(case_by(kind_of(*first)?, line))
}

/// The case of the whole reply that begins the bytes, told by its first bytes alone.
pub fn case_of(reply: &[u8]) -> Option<Case>
    ensures first { result ≡ case_in reply.now }
    ensures tree { Cased reply.now result }
{
    first_case(reply)
}
