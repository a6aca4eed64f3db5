//! Why a printing goes no further.

ghost use Rattle.std.specs.Prelude.{◌≡◌};
ghost use Rattle.graph_notation.specs.declared.halt.Halt.TheVariants.{NoMemory};

use std::alloc::{AllocError, AllocFailed};

/// Why a graph isn't printed to its end.
#[derive(Clone, Copy)]
pub enum Halt {
    /// Its nodes don't stand in the order of a first visit.
    OutOfOrder,
    /// No memory was found.
    NoMemory,
}

impl<T: Drop> From<AllocFailed<T>> for Halt {
    ghost from_gives = { λ _ e. e ≡ NoMemory };

    fn from(_error: AllocFailed<T>) -> Halt {
        Halt::NoMemory
    }
}

impl From<AllocError> for Halt {
    ghost from_gives = { λ _ e. e ≡ NoMemory };

    fn from(_error: AllocError) -> Halt {
        Halt::NoMemory
    }
}
