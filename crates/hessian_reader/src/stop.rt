//! Why an element is not taken.

use std::alloc::{AllocError, AllocFailed};

/// Why an element can't stand where it does.
#[derive(Clone, Copy)]
pub enum Objection {
    /// A `Z` that ends nothing.
    NoEnd,
    /// The number of a node that hasn't begun.
    NoNode(i32),
    /// The number of no type.
    NoType(i32),
    /// The number of no class.
    NoClass(i32),
    /// A negative length or count.
    NoLength(i32),
    /// One node too many.
    TooMany,
    /// An element that its place doesn't take.
    Misplaced,
}

/// Why an element was not taken.
#[derive(Clone, Copy)]
pub enum Stop {
    /// There was no memory for it.
    NoMemory,
    /// It can't stand there.
    Objects(Objection),
}

impl<T: Drop> From<AllocFailed<T>> for Stop {
    ghost use Rattle.std.specs.Prelude.{◌≡◌};
    ghost use Rattle.hessian_reader.specs.declared.stop.Stop.TheVariants.{NoMemory};

    ghost from_gives = { λ _ e. e ≡ NoMemory };

    fn from(_error: AllocFailed<T>) -> Stop {
        Stop::NoMemory
    }
}

impl From<AllocError> for Stop {
    ghost use Rattle.std.specs.Prelude.{◌≡◌};
    ghost use Rattle.hessian_reader.specs.declared.stop.Stop.TheVariants.{NoMemory};

    ghost from_gives = { λ _ e. e ≡ NoMemory };

    fn from(_error: AllocError) -> Stop {
        Stop::NoMemory
    }
}
