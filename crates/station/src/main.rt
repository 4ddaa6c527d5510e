//! Lists the replies in a recording of what a Redis server sent, read from standard input.

#![tactic(auto)]

mod listing;
mod report;
mod survey;

use anyhow::anyhow;
use std::io::Read;

/// The most bytes of a recording.
const RECORDING_MOST: usize = 16 * 1024 * 1024;

fn main(rt: HostRuntime) -> anyhow::Result<()> {
    run(&rt)
}

fn run(rt: &HostRuntime) -> anyhow::Result<()> {
    let mut bytes = Vec::new(rt.alloc());
    rt.stdin()
        .take(RECORDING_MOST as u64 + 1)
        .read_to_end(&mut bytes)?;
    if bytes.len() > RECORDING_MOST {
        return Err(anyhow!("the recording has more than 16 MiB: cut it between two replies"));
    }
    if bytes.is_empty() {
        println!(rt; "the recording is empty")?;
        return Ok(());
    }
    let survey = report::recording(rt, bytes.as_slice())?;
    println!(rt; "{survey}")?;
    Ok(())
}
