//! Numbers as the lines of the Redis protocol write them: plain numbers, integers, doubles and big numbers.

#![tactic(auto)]

mod double;
mod front;
mod integer;
mod laws;
mod plain;
#[cfg(test)]
mod tests;

pub use double::{after_sign, digits_end, is_big_number, is_digits, is_double};
pub use front::{after_first, starts_with};
pub use integer::read_integer;
pub use laws::lines_agree;
pub use plain::plain_number;
