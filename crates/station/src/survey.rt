//! What a recording holds: how many replies, how many bytes they take, and why there are no more.

ghost use Rattle.std.specs.Prelude.{Some};
ghost use Rattle.station.specs.Shown.{shown_fault, shown_survey};

use resp::WireFault;
use std::fmt;

/// The whole replies that begin a recording, one after another; and the fault of what comes after them, if anything does, with
/// its place in the recording.
#[derive(Clone, Copy, PartialEq, Eq, Debug)]
pub struct Survey {
    pub replies: u64,
    pub bytes: usize,
    // kept: not the error of a `Result`, as what came before it counts too
    pub fault: Option<WireFault>,
}

/// The line that tells why there are no more replies, if anything does.
#[derive(Clone, Copy)]
struct Ending(Option<WireFault>);

impl fmt::Display for Ending {
    ghost output = { λ e. Some (shown_fault e.0) };

    fn fmt<W: fmt::Write>(&self, f: &mut fmt::Formatter<W>) -> fmt::Result {
        let Some(fault) = self.0 else {
            return Ok(());
        };
        let number = fault.reason.number();
        let name = fault.reason;
        let place = fault.place;
        write!(f, "\nstopped: fault {number}, {name}, at {place}")
    }
}

impl fmt::Display for Survey {
    ghost output = { λ s. Some (shown_survey s) };

    fn fmt<W: fmt::Write>(&self, f: &mut fmt::Formatter<W>) -> fmt::Result {
        let replies = self.replies;
        let bytes = self.bytes;
        let ending = Ending(self.fault);
        write!(f, "replies: {replies}, bytes: {bytes}{ending}")
    }
}
