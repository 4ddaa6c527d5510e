ghost use Rattle.std.specs.Prelude.{◌<◌, length};

/// An item of the wire, by the place of its first byte among all the bytes.
#[derive(Clone, Copy)]
pub(crate) struct Item<'a> {
    pub bytes: &'a [u8],
    pub at: usize,
    ghost inside: { at < length bytes.now },
}
