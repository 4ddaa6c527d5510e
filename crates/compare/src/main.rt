//! Answers questions, one to a line of standard input, each at once by a line of standard output.
//!
//! A question is the name of a shape, a tab, and bytes in hex. The answer is `ok` with what was
//! read, `no` with the fault and its place, or `bad` where the line is no question.

#![tactic(auto)]

ghost use Rattle.std.specs.Prelude.{◌≡◌, IfOk};
ghost use Rattle.resp.specs.Answer.{answer};
ghost use Rattle.compare.specs.Answering.{Answers, wire_answer};

mod answer;
mod hex;
mod line;
mod question;
mod shape;

use answer::Answer;
use line::without_newline;
use question::{Question, Refusal};
use shape::Shape;
use std::alloc::{AllocError, Global};
use std::io;
use std::io::{BufRead, BufReader};

/// The answer about bytes that are said to begin with a reply.
fn answer_wire(bytes: &[u8]) -> Answer
    ensures { result ≡ wire_answer (answer bytes.now) }
{
    match resp::walk(bytes) {
        Ok(length) => Answer::Whole(length),
        Err(fault) => Answer::Faulty(fault),
    }
}

/// The answer to a line, given without its newline. Only memory can fail.
fn answer_line(heap: Global, line: &[u8]) -> Result<Answer, AllocError>
    ensures { IfOk result (λ a. Answers line.now a) }
{
    match Question::read(heap, line) {
        Ok(question) => match question.shape {
            Shape::Wire => Ok(answer_wire(&question.bytes)),
        },
        Err(Refusal::Bad(why)) => Ok(Answer::Bad(why)),
        Err(Refusal::NoMemory) => Err(AllocError),
    }
}

fn main(rt: HostRuntime) -> io::Result<()> {
    let mut input = BufReader::new(rt.alloc(), rt.stdin())?;
    let mut line = Vec::new(rt.alloc());
    // kept: a `while` over the reads needs a measure, and nothing says how much is left of the input; the reader's `split` takes
    // memory for each line anew
    for _ in 0..u64::MAX {
        line.clear();
        if input.read_until(b'\n', &mut line)? == 0 {
            break;
        }
        let answer = answer_line(rt.alloc(), without_newline(&line))?;
        println!(rt; "{answer}")?;
    }
    Ok(())
}
