ghost use Rattle.std.specs.Prelude.{◌≡◌, ◌≤◌, true, length};
ghost use Rattle.reply.specs.Tree.{wholly, wholly_row};

/// A view of one whole reply, or of one pair of a map, that begins at a place of the bytes.
// kept: a pair is told by a mark, which a place bears too, since most of it is read as of a reply; and no model, since contracts
// speak of a view's tree and of its bytes, and each would have to take the two apart
#[derive(Clone, Copy)]
pub struct Reply<'a> {
    pub bytes: &'a [u8],
    pub at: usize,
    pub pair: bool,
    ghost whole: { wholly bytes.now pair at ≡ true },
    ghost inside: { at ≤ length bytes.now },
}

/// So many of them, one after another.
#[derive(Clone, Copy)]
pub struct Items<'a> {
    pub bytes: &'a [u8],
    pub at: usize,
    pub left: usize,
    pub pairs: bool,
    ghost whole: { wholly_row bytes.now pairs at left ≡ true },
    ghost inside: { at ≤ length bytes.now },
}
