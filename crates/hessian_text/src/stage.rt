//! Where a reading of a text or a binary stands between two bytes.
//!
//! ```text
//! Code --code of a short chunk--------------------> Inside, Code or Ended
//! Code --code of a middling chunk--> Low ---------> Inside, Code or Ended
//! Code --R, S, A, B--> High --> Low --------------> Inside, Code or Ended
//! Inside --bytes of its characters----------------> Inside, Code or Ended
//! ```

/// What is spelled.
#[derive(Clone, Copy, Debug, PartialEq, Eq)]
pub enum Kind {
    /// Characters, counted in units of UTF-16.
    Text,
    /// Bytes.
    Binary,
}

/// Whether a chunk is the last of its value.
#[derive(Clone, Copy, Debug, PartialEq, Eq)]
pub enum Part {
    /// Another chunk follows.
    Inner,
    /// The value ends with it.
    Final,
}

/// The bytes of a character that has begun and not ended, in order.
#[derive(Clone, Copy, Debug, PartialEq, Eq)]
pub enum Begun {
    /// No byte of it came.
    Nothing,
    /// One byte.
    One(u8),
    /// Two bytes.
    Two(u8, u8),
    /// Three bytes, of a character with four or with two surrogates.
    Three(u8, u8, u8),
    /// A high surrogate and the first byte of a low one.
    Four(u8, u8, u8, u8),
    /// A high surrogate and two bytes of a low one.
    Five(u8, u8, u8, u8, u8),
}

/// A whole character in UTF-8, or a byte of a binary.
#[derive(Clone, Copy, Debug, PartialEq, Eq)]
pub enum Letter {
    /// One byte.
    Single(u8),
    /// Two bytes.
    Pair(u8, u8),
    /// Three bytes.
    Triple(u8, u8, u8),
    /// Four bytes: a character above U+FFFF, of two units.
    Quad(u8, u8, u8, u8),
}

/// Where a reading stands.
#[derive(Clone, Copy, Debug, PartialEq, Eq)]
pub enum Stage {
    /// At the code of a chunk.
    Code,
    /// At the high byte of a length of two bytes.
    High(Part),
    /// At the low byte of a length, whose high byte came.
    Low(Part, u8),
    /// Inside a chunk: how many units are left, with those of the character that has begun.
    Inside(Part, u16, Begun),
    /// Behind the last chunk.
    Ended,
}
