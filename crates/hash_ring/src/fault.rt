//! Why a ring refuses a name.

use thiserror::Error;

/// Why a name isn't put into a ring.
#[derive(Clone, Copy, Debug, PartialEq, Eq, Error)]
pub enum RingFault {
    /// The place, from 0, at which the bytes stop being a name: 0 where there are none.
    #[error("the name is bad at {at}")]
    BadName { at: usize },
    /// The ring has the name.
    #[error("the name is in the ring")]
    Repeated,
    /// The ring has as many names as it may have.
    #[error("the ring is full")]
    TooMany,
    /// Memory ran out. The ring is as it was.
    #[error("out of memory")]
    OutOfMemory,
}
