ghost use Rattle.std.specs.Prelude.{◌≡◌, ◌<◌, [], ◌∷◌, IfSome, MatchOption};
ghost use Rattle.reply.specs.Find.{Begins, Narrows, NoneBegins, find, same_spot, told};
ghost use Rattle.reply.specs.Parts.{spot_of};
ghost use Rattle.reply.specs.View.{node_of, nodes_of};

use crate::spot::Spot;
use crate::view::{Items, Reply};

impl<'a> Items<'a> {
    /// The first of some: where it ends is not looked for.
    fn first(self) -> Reply<'a>
        requires { 0 < self.left }
        ensures bytes { result.bytes ≡ self.entry.bytes }
        ensures one { self.entry.left ≡ 1 → nodes_of self.entry ≡ node_of result ∷ [] }
    {
        Reply {
            bytes: self.bytes,
            at: self.at,
            pair: self.pairs,
        }
    }

    /// The one of them in which the place would be: the last that begins no later. It passes by those that end before.
    fn around(self, spot: Spot) -> Option<Reply<'a>>
        ensures { MatchOption result (nodes_of self.entry ≡ []) (λ reply. Narrows spot self.entry reply) }
    {
        if self.left == 0 {
            return None;
        }
        let mut here = self;
        // kept: `take_while` would have to be told where the next begins, which a view doesn't say of itself; and the last is
        // taken without being passed, since each level below it would pass all of it again
        while here.left > 1 {
            let mut others = here;
            let first = others.next()?;
            if spot.at < others.at {
                return Some(first);
            }
            here = others;
        }
        Some(here.first())
    }
}

impl<'a> Reply<'a> {
    /// Whether it begins at a place.
    fn is_at(self, spot: Spot) -> bool
        ensures { result ≡ same_spot (spot_of (node_of self.entry)) spot }
    {
        self.spot() == spot
    }

    // kept: what `find` says more follows from this, and is shown once
    /// The reply itself, or the part of it, that begins at a place.
    fn part_at(self, spot: Spot) -> Option<Reply<'a>>
        ensures tree { told result ≡ find spot (node_of self.entry) }
        ensures bytes { IfSome result (λ reply. reply.bytes ≡ self.entry.bytes) }
    {
        // kept: each turn goes a level down, and how many there are isn't known before
        let mut here = self;
        while !here.is_at(spot) {
            here = here.inner().around(spot)?;
        }
        Some(here)
    }

    /// What begins at a place: the reply itself, or a part of it at any depth; the keys, the values and the data of attributes too. Only a pair of a map is found by a place with the mark of pairs.
    #[tactic(auto, using(crate::proofs::Finds::told_begins))]
    pub fn find(self, spot: Spot) -> Option<Reply<'a>>
        ensures tree { told result ≡ find spot (node_of self.entry) }
        ensures found { MatchOption result (NoneBegins spot (node_of self.entry)) (λ reply. Begins spot (node_of self.entry) (node_of reply)) }
        ensures bytes { IfSome result (λ reply. reply.bytes ≡ self.entry.bytes) }
    {
        self.part_at(spot)
    }
}
