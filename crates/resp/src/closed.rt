ghost use Rattle.std.specs.Prelude.{◌≡◌, ◌+◌, ◌≤◌, ◌∷◌, length, drop};

/// The content of a line, or a body: the bytes between two places, with CR LF behind them.
#[derive(Clone, Copy)]
pub(crate) struct Closed<'a> {
    pub bytes: &'a [u8],
    pub from: usize,
    pub end: usize,
    ghost ordered: { from ≤ end },
    ghost inside: { end + 2 ≤ length bytes.now },
    ghost closed: { drop end bytes.now ≡ 13 ∷ 10 ∷ drop (end + 2) bytes.now },
}
