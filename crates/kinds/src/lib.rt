//! Element kinds: how a reply reads as a value, singly, in a list and from a byte string.

#![tactic(auto)]

mod bounds;
mod each;
mod fault;
mod fault_at;
mod integer;
mod ints;
mod kind;
mod number;
mod optional;
mod plain;
mod same;
mod sames;
mod text;
mod tuple;
mod tuples;

pub use bounds::Bounds;
pub use each::{join_one, read_next};
pub use fault::{
    Below, ElementFault, ElementReason, Fault, IntakeReason, Record, RecordFault, RecordReason,
};
pub use fault_at::{refuse, refuse_at};
pub use integer::Width;
pub use ints::{F64, I8, I64, Integer, U8, U16, U64};
pub use kind::{FromRedisValue, Rows, Single};
pub use number::{float_number, whole_number};
pub use optional::Optional;
pub use plain::{Bool, Nothing, Text, Value};
pub use same::{Same, same_next};
pub use text::text_of;
pub use tuple::Tuple;
