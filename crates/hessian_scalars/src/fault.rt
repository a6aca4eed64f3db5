//! Why a call gave no value.

use thiserror::Error;

/// Memory was refused.
pub use std::alloc::AllocError as OutOfMemory;

/// Why no scalar stands at a place of bytes.
#[derive(Clone, Copy, Debug, PartialEq, Eq, Error)]
pub enum ScalarFault {
    /// The bytes end, at this place, before the scalar does.
    #[error("the bytes end at {at}, before the value does")]
    Short { at: usize },
    /// A double begins here, by this code. No double is read.
    #[error("a double begins at {at}, by the code {code:02x}")]
    Double { at: usize, code: u8 },
    /// This code, which stands here, begins no value of the kind asked for.
    #[error("the code {code:02x} at {at} begins no such value")]
    Other { at: usize, code: u8 },
}
