//! Why bytes are no text and no binary.

use thiserror::Error;

/// Want of memory, one type for all crates.
pub use std::alloc::AllocError as OutOfMemory;

/// Why no text stands at the place that was asked for. Places count from the input's first byte.
#[derive(Clone, Copy, Debug, PartialEq, Eq, Error)]
pub enum TextFault {
    /// The input ends inside the text, at its length.
    #[error("the text is cut off at {at}")]
    Short { at: usize },
    /// No text and no chunk of one begins with this byte.
    #[error("no text's code at {at}: {code:02x}")]
    BadCode { at: usize, code: u8 },
    /// The bytes from here are no character that fits the rest of its chunk.
    #[error("no character at {at}")]
    BadText { at: usize },
    /// No memory was found for the text.
    #[error("out of memory")]
    OutOfMemory,
}

/// Why no binary stands at the place that was asked for. Places count from the input's first byte.
#[derive(Clone, Copy, Debug, PartialEq, Eq, Error)]
pub enum BinaryFault {
    /// The input ends inside the binary, at its length.
    #[error("the binary is cut off at {at}")]
    Short { at: usize },
    /// No binary and no chunk of one begins with this byte.
    #[error("no binary's code at {at}: {code:02x}")]
    BadCode { at: usize, code: u8 },
    /// No memory was found for the binary.
    #[error("out of memory")]
    OutOfMemory,
}
