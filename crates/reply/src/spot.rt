/// Where a reply begins, and whether it is one pair of a map: then its key begins there.
#[derive(Clone, Copy, PartialEq, Eq, Debug)]
pub struct Spot {
    pub at: usize,
    pub pair: bool,
}
