#![tactic(auto)]

mod body;
mod case;
mod closed;
mod fault;
mod head;
mod item;
mod kind;
mod laws;
mod leaf;
mod limits;
mod line;
mod opening;
mod size;
#[cfg(test)]
mod tests;
mod walking;

pub use case::{Case, case_of};
pub use fault::{WireFault, WireReason};
pub use kind::{Kind, kind_of};
pub use laws::{examples_stand, reading_agrees};
pub use limits::DEEPEST;
pub use opening::Opening;
pub use walking::{open_item, walk};
