ghost use Rattle.std.specs.Prelude.{◌≡◌, Ok};
ghost use Rattle.reply.specs.View.{node_of};
ghost use Rattle.collections.specs.Counted.{Counted};
ghost use Rattle.collections.specs.declared.listed.Listed.{Listed};
ghost use Rattle.collections.specs.Lists.{listed_one};

use crate::collection::Collection;
use crate::listed::Listed;
use crate::table::count_rows;
use kinds::Fault;
use reply::Reply;
use std::marker::PhantomData;

/// The rows of a reply as a value: its place, and how many they are.
pub fn read_listed<C: Collection>(shape: &C, reply: Reply<'_>) -> Result<Listed<C::Row>, Fault>
    ensures read { result ≡ listed_one (C.Collection.rows shape.now) (node_of reply.entry) }
    ensures rows { (v : Listed C.Row) → result ≡ Ok v → Counted (C.Collection.rows shape.now) (node_of reply.entry) v }
{
    place_and_count(shape, reply)
}

// kept: what `read_listed` says more follows from this, and is shown once
fn place_and_count<C: Collection>(shape: &C, reply: Reply<'_>) -> Result<Listed<C::Row>, Fault>
    ensures { result ≡ listed_one (C.Collection.rows shape.now) (node_of reply.entry) }
{
    let count = count_rows(shape, reply)?;
    Ok(Listed {
        spot: reply.spot(),
        count,
        of: PhantomData,
    })
}
