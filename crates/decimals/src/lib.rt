//! Numbers as text says them to Rust's parsers: whole numbers, and decimal numbers that are floats rounded once.

#![tactic(auto)]

mod decimal;
mod digits;
mod double;
mod fault;
mod floats;
mod laws;
mod tens;
#[cfg(test)]
mod tests;
mod whole;

pub use decimal::read_float;
pub use double::read_double;
pub use fault::FloatFault;
pub use floats::{exact_float, whole_of};
pub use laws::{rounding_stands, texts_agree};
pub use whole::read_whole;
