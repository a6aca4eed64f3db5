//! What serving a link comes to.

use thiserror::Error;

/// How much of a link was served.
#[derive(Clone, Copy, Debug, PartialEq, Eq)]
pub struct Served {
    /// The requests that were read, events not counted.
    pub requests: u64,
    /// The frames that were written whole.
    pub answers: u64,
}

/// Why serving a link stopped before the source ended between two frames.
#[derive(Clone, Copy, Debug, PartialEq, Eq, Error)]
pub enum ServeFault {
    /// The source or the sink failed; `faults` is at least 1, and at most what its count of faults is then.
    #[error("the link was lost after {faults} faults")]
    Lost { faults: u64 },
    /// The sixteen bytes at this place of the stream are no header.
    #[error("the stream is broken at {at}")]
    Broken { at: u64 },
    /// The source ended inside the frame that begins at this place of the stream.
    #[error("the stream is cut short in the frame at {at}")]
    CutShort { at: u64 },
    /// There was no memory. A call that wants a reply is answered with status 80 instead.
    #[error("out of memory")]
    OutOfMemory,
}

/// A link that was served until the source ended, or until something stopped it.
#[derive(Clone, Copy, Debug, PartialEq, Eq)]
pub struct Session {
    /// How much was served.
    pub served: Served,
    /// What stopped it; `None` where the source ended between two frames.
    pub fault: Option<ServeFault>,
}
