//! The limits of the wire, each stated here alone.

/// Bytes of a line.
pub const LINE_MOST: usize = 1024;

/// Bytes of a body.
pub const LENGTH_MOST: u32 = 60_000;

/// Items of an array, a set or a push.
pub const ITEMS_MOST: u32 = 4096;

/// Pairs of a map or an attribute.
pub const PAIRS_MOST: u32 = 2048;

/// Levels of a reply; the outermost counts.
pub const DEEPEST: usize = 32;
