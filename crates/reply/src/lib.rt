//! Views of whole replies, in place: what begins where, and what stands right below it.

#![tactic(auto)]

mod alone;
mod ends;
mod find;
mod laws;
mod line;
mod open;
mod part;
mod pass;
mod read;
mod row;
mod spot;
#[cfg(test)]
mod tests;
mod view;
mod whole;

pub use laws::places_agree;
pub use part::Part;
pub use spot::Spot;
pub use view::{Items, Reply};
pub use whole::check;
