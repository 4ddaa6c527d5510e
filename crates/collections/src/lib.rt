//! Lists, sets and maps: their rows, read from replies in place.

#![tactic(auto)]

mod collection;
mod cursor;
mod entry;
mod field;
mod fill;
mod inside;
mod laws;
mod list;
mod list_steps;
mod listed;
mod map;
mod map_steps;
mod pick;
mod set;
mod set_steps;
mod table;
#[cfg(test)]
mod tests;

pub use collection::Collection;
pub use cursor::{Classes, Cursor, Cuts};
pub use field::text_under;
pub use inside::read_listed;
pub use laws::{examples_stand, rows_agree};
pub use list::ListOf;
pub use listed::Listed;
pub use map::MapOf;
pub use pick::row_at;
pub use set::SetOf;
pub use table::{count_rows, fill_table, nth_row};
