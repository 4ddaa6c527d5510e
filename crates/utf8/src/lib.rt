//! UTF-8: where a text stops being well formed, by table 3-7 of the Unicode Standard.

#![tactic(auto)]

ghost use Rattle.std.specs.Prelude.{◌≡◌, ◌<◌};
ghost use Rattle.utf8.specs.Scan.{Located, greatest, ill_formed, least, length_of, ones};
ghost use Rattle.utf8.specs.Step.{at_end, beginning, following, initial, passing, step_of};
ghost use Rattle.utf8.specs.Theorems.{Accepts, Locates, Standard, Tells};

/// The run of one-bits at the front of a byte.
fn leading_run(byte: u8) -> u32
    ensures { result ≡ ones byte }
{
    byte.leading_ones()
}

/// How many bytes the sequence that `lead` begins has, or `None` if `lead` begins none.
/// The run of one-bits at the front of `lead` is its length, and a byte with none stands alone.
fn sequence_length(lead: u8) -> Option<u8>
    ensures { result ≡ length_of lead }
{
    match leading_run(lead) {
        0 => Some(1),
        2 if lead >= 0xC2 => Some(2),
        3 => Some(3),
        4 if lead <= 0xF4 => Some(4),
        _ => None,
    }
}

/// The least and the greatest second byte after `lead`. Less would spell a value that has a shorter
/// sequence, and more a surrogate, or a value above U+10FFFF.
fn second_range(lead: u8) -> (u8, u8)
    ensures { result ≡ (least lead, greatest lead) }
{
    match lead {
        0xE0 => (0xA0, 0xBF),
        0xED => (0x80, 0x9F),
        0xF0 => (0x90, 0xBF),
        0xF4 => (0x80, 0x8F),
        _ => (0x80, 0xBF),
    }
}

/// How far a text is read: the sequence at `start` has `due` bytes still to come,
/// the next of them from `low` to `high`.
// kept: an `Option` of the sequence at hand is no plainer: both readers of a byte would have to test
// whether that byte is its last one, where the count of bytes due says so by itself
#[derive(Clone, Copy)]
struct State {
    start: usize,
    due: u8,
    low: u8,
    high: u8,
}

impl State {
    /// Nothing is read, and nothing is due.
    fn new() -> State
        ensures { result ≡ initial }
    {
        State {
            start: 0,
            due: 0,
            low: 0x80,
            high: 0xBF,
        }
    }

    /// Whether nothing is due and `byte` stands alone, so that the state stays as it is.
    fn passes(self, byte: u8) -> bool
        ensures { result ≡ passing self byte }
    {
        self.due == 0 && byte < 0x80
    }

    /// Reads the byte at `place`: the state after it,
    /// or the place of the sequence that it shows to be ill formed.
    fn step(self, place: usize, byte: u8) -> Result<State, usize>
        ensures { result ≡ step_of self place byte }
    {
        if self.due > 0 {
            self.follow(byte)
        } else {
            State::begin(place, byte)
        }
    }

    /// Reads a byte that is due.
    fn follow(self, byte: u8) -> Result<State, usize>
        requires { 0 < self.due }
        ensures { result ≡ following self byte }
    {
        if !(self.low..=self.high).contains(&byte) {
            return Err(self.start);
        }
        Ok(State {
            start: self.start,
            due: self.due - 1,
            low: 0x80,
            high: 0xBF,
        })
    }

    /// Reads the first byte of a sequence.
    fn begin(place: usize, byte: u8) -> Result<State, usize>
        ensures { result ≡ beginning place byte }
    {
        let length = sequence_length(byte).ok_or(place)?;
        let (low, high) = second_range(byte);
        Ok(State {
            start: place,
            due: length - 1,
            low,
            high,
        })
    }

    /// The verdict where the text ends: a sequence that has bytes due is ill formed.
    fn end(self) -> Option<usize>
        ensures { result ≡ at_end self }
    {
        (self.due > 0).then_some(self.start)
    }
}

/// The place of the first ill-formed sequence in `text`, or `None` if the text is well formed.
pub fn ill_formed(text: &[u8]) -> Option<usize>
    ensures located { Located text.now (ill_formed text.now) result }
    ensures tells { Tells text.now result }
{
    // kept: `try_fold` is no plainer: a byte that passes would hand the state on, and the result be matched for two verdicts
    let mut state = State::new();
    for (i, byte) in text.iter().enumerate() {
        if state.passes(*byte) {
            continue;
        }
        match state.step(i, *byte) {
            Ok(next) => state = next,
            Err(place) => return Some(place),
        }
    }
    state.end()
}

/// Holds what is proved of the table and the scan; it computes nothing.
pub fn table_stands() -> u8
    ensures accepts { Accepts }
    ensures locates { Locates }
    ensures standard { Standard }
{
    0
}

#[cfg(test)]
mod tests {
    use super::*;

    #[test]
    fn well_formed(rt: HostRuntime) {
        assert_eq!(rt; ill_formed("é, € and 😀".as_bytes()), None);
    }

    #[test]
    fn ill_formed_places(rt: HostRuntime) {
        assert_eq!(rt; ill_formed(&[0xC3, 0xA9, 0xE0, 0x9F, 0x80]), Some(2));
        assert_eq!(rt; ill_formed(&[0x61, 0xE2, 0x82]), Some(1));
    }
}
