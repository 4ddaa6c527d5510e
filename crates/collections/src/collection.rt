ghost use Rattle.std.specs.Prelude.{◌≡◌, List, Result};
ghost use Rattle.kinds.specs.declared.fault.Fault.{Fault};
ghost use Rattle.resp.specs.Node.{Node};
ghost use Rattle.reply.specs.View.{node_of};
ghost use Rattle.collections.specs.declared.cursor.Cursor.{Cursor};
ghost use Rattle.collections.specs.Steps.{Falls, Starts, Steps, size};

use crate::cursor::Cursor;
use kinds::Fault;
use reply::Reply;

/// A shape with rows: a list, a set or a map.
pub trait Collection {
    type Row: Copy;

    // the rows of a reply
    ghost rows: { Self → Node → Result (List Self.Row) Fault };

    // the rows that are left at a cursor
    ghost left: { Self → Cursor → Result (List Self.Row) Fault };

    fn begin<'a>(&self, reply: Reply<'a>) -> Result<Cursor<'a>, Fault>
        ensures { Starts (rows self.now (node_of reply.entry)) (left self.now) result };

    fn advance(&self, cursor: &mut Cursor<'_>) -> Option<Result<Self::Row, Fault>>
        ensures step { Steps (left self.now cursor.old) result (left self.now cursor.new) }
        ensures falls { Falls (size cursor.old) result (size cursor.new) };
}
