//! Why bytes are no script.

use std::alloc::{AllocError, AllocFailed};
use thiserror::Error;

/// Why bytes are no script. Lines count from 1.
///
/// The first line that is bad or a call too many is answered, and only where there is none a call that is too large.
#[derive(Clone, Copy, Debug, PartialEq, Eq, Error)]
pub enum ScriptFault {
    /// A line of no form that there is, or a service that can't be added to those before it.
    #[error("line {line} is bad")]
    BadLine {
        /// The line.
        line: u32,
    },
    /// The 4,097th line whose first word is `call`.
    #[error("line {line} is a call too many")]
    TooManyCalls {
        /// The line.
        line: u32,
    },
    /// A call whose request body has more bytes or nodes than it may have.
    #[error("the request of line {line} is too large")]
    TooLarge {
        /// The line.
        line: u32,
    },
    /// No memory was found.
    #[error("out of memory")]
    OutOfMemory,
}

impl From<AllocError> for ScriptFault {
    ghost use Rattle.std.specs.Prelude.{◌≡◌};
    ghost use Rattle.call_plan.specs.declared.fault.ScriptFault.TheVariants.{OutOfMemory};

    ghost from_gives = { λ _ e. e ≡ OutOfMemory };

    fn from(_error: AllocError) -> ScriptFault {
        ScriptFault::OutOfMemory
    }
}

impl<T: Drop> From<AllocFailed<T>> for ScriptFault {
    ghost use Rattle.std.specs.Prelude.{◌≡◌};
    ghost use Rattle.call_plan.specs.declared.fault.ScriptFault.TheVariants.{OutOfMemory};

    ghost from_gives = { λ _ e. e ≡ OutOfMemory };

    fn from(_error: AllocFailed<T>) -> ScriptFault {
        ScriptFault::OutOfMemory
    }
}
