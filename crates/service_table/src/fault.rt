//! Why a table of services refuses a row.

use dubbo_bodies::DescFault;
use thiserror::Error;

/// Why a row isn't put into a table of services, in the order in which it is looked for.
#[derive(Clone, Copy, Debug, PartialEq, Eq, Error)]
pub enum AddFault {
    /// The text that should say the types of the parameters is no descriptor.
    #[error("{0}")]
    Descriptor(DescFault),
    /// The descriptor names fewer parameters than the kind needs, which are so many.
    #[error("the kind needs {needed} arguments")]
    TooFewArgs {
        /// How many the kind needs.
        needed: u32,
    },
    /// The table has a row of this service, the row of this number, which counts from 0.
    #[error("row {row} is of the same service")]
    Repeated {
        /// The number of the row that is there.
        row: u32,
    },
    /// Memory ran out.
    #[error("out of memory")]
    OutOfMemory,
}
