ghost use Rattle.std.specs.Prelude.{◌≡◌, [], ◌∷◌};
ghost use Rattle.reply.specs.View.{node_of, nodes_of};

use crate::view::{Items, Reply};

impl<'a> Reply<'a> {
    /// A row of this view alone.
    pub fn alone(self) -> Items<'a>
        ensures trees { nodes_of result ≡ node_of self.entry ∷ [] }
        ensures bytes { result.bytes ≡ self.entry.bytes }
    {
        Items {
            bytes: self.bytes,
            at: self.at,
            left: 1,
            pairs: self.pair,
        }
    }
}
