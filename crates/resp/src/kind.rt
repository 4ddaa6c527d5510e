ghost use Rattle.resp.specs.Reading.{kind_of};
ghost use Rattle.std.specs.Prelude.{◌≡◌};

/// The fifteen kinds that a reply's first character tells apart.
#[derive(Clone, Copy, PartialEq, Eq, Debug)]
pub enum Kind {
    SimpleString,
    SimpleError,
    Integer,
    BulkString,
    Array,
    Null,
    Boolean,
    Double,
    BigNumber,
    BulkError,
    VerbatimString,
    Map,
    Attribute,
    Set,
    Push,
}

/// The kind that a first byte tells, if any.
pub fn kind_of(first: u8) -> Option<Kind>
    ensures { result ≡ kind_of first }
{
    match char::from(first) {
        '+' => Some(Kind::SimpleString),
        '-' => Some(Kind::SimpleError),
        ':' => Some(Kind::Integer),
        '$' => Some(Kind::BulkString),
        '*' => Some(Kind::Array),
        '_' => Some(Kind::Null),
        '#' => Some(Kind::Boolean),
        ',' => Some(Kind::Double),
        '(' => Some(Kind::BigNumber),
        '!' => Some(Kind::BulkError),
        '=' => Some(Kind::VerbatimString),
        '%' => Some(Kind::Map),
        '|' => Some(Kind::Attribute),
        '~' => Some(Kind::Set),
        '>' => Some(Kind::Push),
        _ => None,
    }
}
