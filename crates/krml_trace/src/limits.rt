//! Limits of a text that more than one crate asks for.

/// The bytes that a source text may have.
pub const MAX_TEXT: usize = 1_048_576;

/// The levels that lists in a source text may have.
pub const MAX_LEVELS: usize = 64;

/// The numbers that a table may have, and the elements that an array may have.
pub const MAX_ELEMENTS: u32 = 65_536;
