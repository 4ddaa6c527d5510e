ghost use Rattle.std.specs.Prelude.{Some};
ghost use Rattle.compare.specs.Shown.{shown_answer, shown_bad};

use resp::WireFault;
use std::fmt;

/// Why a line is no question.
#[derive(Clone, Copy, PartialEq, Eq, Debug)]
pub enum BadLine {
    NoTab,
    UnknownShape,
    OddHex,
    NotHex,
}

/// What is said of a line.
#[derive(Clone, Copy)]
pub enum Answer {
    /// A whole reply of so many bytes.
    Whole(usize),
    /// No whole reply, and why.
    Faulty(WireFault),
    /// The line is no question.
    Bad(BadLine),
}

impl fmt::Display for BadLine {
    ghost output = { λ why. Some (shown_bad why) };

    fn fmt<W: fmt::Write>(&self, f: &mut fmt::Formatter<W>) -> fmt::Result {
        let words = match self {
            BadLine::NoTab => "no tab",
            BadLine::UnknownShape => "unknown shape",
            BadLine::OddHex => "odd hex",
            BadLine::NotHex => "not hex",
        };
        f.write_str(words)
    }
}

impl fmt::Display for Answer {
    ghost output = { λ a. Some (shown_answer a) };

    fn fmt<W: fmt::Write>(&self, f: &mut fmt::Formatter<W>) -> fmt::Result {
        match *self {
            Answer::Whole(length) => write!(f, "ok\t{length}"),
            Answer::Faulty(fault) => {
                let number = fault.reason.number();
                let place = fault.place;
                write!(f, "no\twire {number} {place}")
            }
            Answer::Bad(why) => write!(f, "bad\t{why}"),
        }
    }
}
