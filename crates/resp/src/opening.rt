/// A length or a count, and where the bytes after its line start. No count stands for -1.
#[derive(Clone, Copy, PartialEq, Eq, Debug)]
pub struct Size<N> {
    pub count: N,
    pub start: usize,
}

/// An item up to its parts: how many replies stand right below it, whether the first of them has to be a string, and where they start.
#[derive(Clone, Copy, PartialEq, Eq, Debug)]
pub struct Opening {
    pub items: usize,
    pub named: bool,
    pub start: usize,
}
