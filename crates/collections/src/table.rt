ghost use Rattle.std.specs.Prelude.{◌≡◌, length};
ghost use Rattle.kinds.specs.Rows.{counted};
ghost use Rattle.reply.specs.View.{node_of};
ghost use Rattle.std.specs.Iterator.{at_most};
ghost use Rattle.collections.specs.Steps.{Moves, Room, calls, laid, noted, nth_in, size, tabled};

use crate::collection::Collection;
use crate::cursor::Cursor;
use kinds::{Fault, IntakeReason};
use reply::Reply;

/// The rows that are left at a cursor, up to a refusal; no cursor once all have come.
#[derive(Drop)]
struct Left<'a, C> {
    shape: &'a C,
    cursor: Option<Cursor<'a>>,
}

impl<'a, C: Collection> Iterator for Left<'a, C> {
    type Item = Result<C::Row, Fault>;

    ghost next_gives = { λ left row others. (others.shape ≡ left.shape) × Moves (C.Collection.left left.shape.now) left.cursor row others.cursor };

    ghost remaining = { λ left. at_most (calls left.cursor) };

    fn next(&mut self) -> Option<Result<C::Row, Fault>> {
        let row = self.shape.advance(self.cursor.as_mut()?);
        if !matches!(row, Some(Ok(_))) {
            self.cursor = None;
        }
        row
    }
}

/// How many rows are left.
fn count_left<C: Collection>(shape: &C, cursor: Cursor<'_>) -> Result<usize, Fault>
    ensures { result ≡ counted (C.Collection.left shape.now cursor.entry) }
{
    // no more rows come, so that the count fits
    let most = cursor.size();
    let left = Left {
        shape,
        cursor: Some(cursor),
    };
    let mut count = 0;
    // kept: by `try_fold` the closure that adds one would have to be told that the count fits
    for row in left {
        row?;
        count += 1;
    }
    Ok(count)
}

/// How many rows a reply has.
pub fn count_rows<C: Collection>(shape: &C, reply: Reply<'_>) -> Result<usize, Fault>
    ensures { result ≡ counted (C.Collection.rows shape.now (node_of reply.entry)) }
{
    let cursor = shape.begin(reply)?;
    count_left(shape, cursor)
}

/// The row that is found once `skip` more are passed, of those so far and this one.
fn note_row<R: Copy>(found: Option<R>, skip: usize, row: R) -> Option<R>
    ensures { result ≡ noted found skip row }
{
    if skip == 0 {
        found.or(Some(row))
    } else {
        found
    }
}

/// The row `i` of those that are left, once all are read.
fn nth_left<C: Collection>(shape: &C, cursor: Cursor<'_>, i: usize) -> Result<Option<C::Row>, Fault>
    ensures { result ≡ nth_in i (C.Collection.left shape.now cursor.entry) }
{
    let left = Left {
        shape,
        cursor: Some(cursor),
    };
    // kept: tried by `enumerate`, but that its index fits did not prove: a refusal may come as one item more than can be counted
    let mut skip = i;
    let mut found = None;
    for row in left {
        found = note_row(found, skip, row?);
        skip = skip.saturating_sub(1);
    }
    Ok(found)
}

/// The row `i` of a reply, once all its rows are read.
pub fn nth_row<C: Collection>(
    shape: &C,
    reply: Reply<'_>,
    i: usize,
) -> Result<Option<C::Row>, Fault>
    ensures { result ≡ nth_in i (C.Collection.rows shape.now (node_of reply.entry)) }
{
    let cursor = shape.begin(reply)?;
    nth_left(shape, cursor, i)
}

/// Writes the rows that are left, where the table has room for them.
fn fill_left<C: Collection>(shape: &C, cursor: Cursor<'_>, table: &mut [C::Row])
    ensures { Room (C.Collection.left shape.now cursor.entry) (length table.old) → table.new ≡ laid (C.Collection.left shape.now cursor.entry) table.old }
{
    let mut rest = cursor;
    for slot in table.iter_mut() {
        let Some(Ok(value)) = shape.advance(&mut rest) else {
            return;
        };
        *slot = value;
    }
}

/// Reads a reply's rows into the table from row 0 on, and answers how many they are. A refusal leaves the table as it was,
/// and later rows stay.
pub fn fill_table<C: Collection>(
    shape: &C,
    reply: Reply<'_>,
    table: &mut [C::Row],
) -> Result<usize, Fault>
    ensures { (result, table.new) ≡ tabled (C.Collection.rows shape.now (node_of reply.entry)) table.old }
{
    let count = count_rows(shape, reply)?;
    if count > table.len() {
        return Err(Fault::Intake(IntakeReason::Table));
    }
    let cursor = shape.begin(reply)?;
    fill_left(shape, cursor, table);
    Ok(count)
}
