//! What the commands read.

/// The most bytes of an input.
pub const INPUT_LIMIT: usize = 4_194_304;
