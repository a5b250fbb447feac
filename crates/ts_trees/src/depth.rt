//! How deep a source may be nested.

/// The greatest number of blocks that are open at once.
pub const BLOCKS_MAX: u8 = 32;

/// The greatest number of counted tokens since the last break.
pub const COUNTED_MAX: u8 = 64;
