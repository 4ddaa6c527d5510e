//! Kinds that are written: what is read back is what was written.

#![tactic(auto)]

mod back;
mod kind;
mod plain;
mod rows;

pub use back::read_written;
pub use kind::{Writes, WritesEach};
