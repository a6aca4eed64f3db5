//! Why bytes denote no graph.

use std::alloc::AllocError;
use thiserror::Error;

/// Why the bytes denote no graph with so many roots. Places count bytes from 0.
///
/// A refused number stands at its first byte, and `Short` at the number of bytes that came.
#[derive(Clone, Copy, Debug, PartialEq, Eq, Error)]
pub enum HessianFault {
    /// The bytes end before the last root does.
    #[error("the values are cut off at {at}")]
    Short { at: usize },
    /// A double, which this project has no values for.
    #[error("a double at {at}: {code:02x}")]
    Double { at: usize, code: u8 },
    /// A byte that begins nothing where it stands.
    #[error("a code that begins nothing here at {at}: {code:02x}")]
    BadCode { at: usize, code: u8 },
    /// The bytes from here are no character that fits the rest of its chunk.
    #[error("no character at {at}")]
    BadText { at: usize },
    /// A reference to a node that hasn't begun.
    #[error("a reference at {at} to no node: {number}")]
    BadRef { at: usize, number: i32 },
    /// The number of no type that came.
    #[error("no type at {at}: {number}")]
    BadType { at: usize, number: i32 },
    /// The number of no class that was defined.
    #[error("no class at {at}: {number}")]
    BadClass { at: usize, number: i32 },
    /// A negative length, or a negative number of fields.
    #[error("no length at {at}: {number}")]
    BadLength { at: usize, number: i32 },
    /// The code of a node that is one too many.
    #[error("too many nodes at {at}")]
    TooManyNodes { at: usize },
    /// A byte behind the last root.
    #[error("bytes behind the last value at {at}")]
    Trailing { at: usize },
    /// No memory was found.
    #[error("out of memory")]
    OutOfMemory,
}

impl From<AllocError> for HessianFault {
    ghost use Rattle.std.specs.Prelude.{◌≡◌};
    ghost use Rattle.hessian_reader.specs.declared.fault.HessianFault.TheVariants.{OutOfMemory};

    ghost from_gives = { λ _ e. e ≡ OutOfMemory };

    fn from(_error: AllocError) -> HessianFault {
        HessianFault::OutOfMemory
    }
}
