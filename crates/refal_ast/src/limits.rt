// The limits of document 01.

// The most bytes of a source, and of a text.
pub const MOST_BYTES: usize = 16777216;

// The most rows of a tree that is written, and its most levels.
pub const MOST_ROWS: usize = 33554432;

pub const MOST_LEVELS: usize = 64;
