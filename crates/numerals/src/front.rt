ghost use Rattle.numerals.specs.Front.{starts_with};
ghost use Rattle.std.specs.Prelude.{◌≡◌, drop};

/// Whether `byte` is the first of `content`.
pub fn starts_with(content: &[u8], byte: u8) -> bool
    ensures { result ≡ starts_with byte content.now }
{
    matches!(content, [first, ..] if *first == byte)
}

/// `content` without its first byte, if it has one.
pub fn after_first(content: &[u8]) -> &[u8]
    ensures { result.now ≡ drop 1 content.now }
{
    match content {
        [_, rest @ ..] => rest,
        [] => content,
    }
}
