ghost use Rattle.std.specs.Prelude.{◌≡◌, MatchOption};
ghost use Rattle.std.specs.Iterator.{at_most};
ghost use Rattle.reply.specs.Rows.{Over, Passes};
ghost use Rattle.reply.specs.View.{nil_node, node_of};

use crate::view::{Items, Reply};

/// A nil that is no part of any bytes handed in.
impl Default for Reply<'_> {
    ghost is_default = { λ reply. node_of reply ≡ nil_node };

    fn default() -> Self {
        Reply {
            bytes: b"_\r\n",
            at: 0,
            pair: false,
        }
    }
}

impl<'a> Iterator for Items<'a> {
    type Item = Reply<'a>;

    ghost next_gives = { λ row first others. MatchOption first (Over row others) (λ reply. Passes row reply others) };

    ghost remaining = { λ row. at_most row.left };

    fn next(&mut self) -> Option<Reply<'a>> {
        if self.left == 0 {
            return None;
        }
        let reply = Reply {
            bytes: self.bytes,
            at: self.at,
            pair: self.pairs,
        };
        self.at = reply.end();
        self.left -= 1;
        Some(reply)
    }

    fn size_hint(&self) -> (usize, Option<usize>) {
        (self.left, Some(self.left))
    }
}
