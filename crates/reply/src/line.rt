ghost use Rattle.std.specs.Prelude.{◌≡◌, ◌==◌, position};
ghost use Rattle.reply.specs.Parted.{after_lf};

/// Where the first LF stands.
fn first_lf(bytes: &[u8]) -> Option<usize>
    ensures { result ≡ position (λ byte. byte == 10) bytes.now }
{
    bytes.iter().position(|byte| *byte == b'\n')
}

/// How many bytes stand up to the first LF, and with it.
pub(crate) fn after_lf(bytes: &[u8]) -> usize
    ensures { result ≡ after_lf bytes.now }
{
    // kept: tried as `map_or`, but the two cases of its answer did not prove by themselves any more
    match first_lf(bytes) {
        Some(place) => place + 1,
        None => bytes.len(),
    }
}
