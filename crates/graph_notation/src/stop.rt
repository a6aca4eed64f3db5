//! Why a reading goes no further.

ghost use Rattle.std.specs.Prelude.{◌≡◌};
ghost use Rattle.graph_notation.specs.declared.stop.Stop.TheVariants.{NoMemory};

use crate::frame::Cause;
use std::alloc::AllocError;

/// Why an element isn't taken.
#[derive(Clone, Copy)]
pub enum Stop {
    /// It's refused.
    Refused(Cause),
    /// No memory was found.
    NoMemory,
}

impl From<AllocError> for Stop {
    ghost from_gives = { λ _ e. e ≡ NoMemory };

    fn from(_error: AllocError) -> Stop {
        Stop::NoMemory
    }
}
