// The bounds that every network keeps to, as specs/Bounds.antt of crate flow names them.

// The most junctions, and the most reaches, that a network may have.
pub const MOST_JUNCTIONS: usize = 512;

pub const MOST_REACHES: usize = 2048;

// The highest limit that a reach may have.
pub const HIGHEST_LIMIT: u32 = 1_000_000;

// The highest limit that a call may set.
pub const HIGHEST_SETTING: u32 = 1_000_000;
