//! What a reader of frames answers.

use crate::body::Body;
use dubbo_header::Header;

/// What stands next in a stream.
#[derive(Drop, Debug)]
pub enum Next {
    /// The next whole frame.
    Frame { header: Header, body: Body },
    /// A frame whose body found no memory: its bytes were read and dropped.
    NoMemory { header: Header },
    /// The source ended between two frames.
    End,
    /// The source failed; `faults` counts the reads of this reader that did.
    Lost { faults: u64 },
    /// The sixteen bytes `head` at this place are no header.
    Broken { at: u64, head: [u8; 16] },
    /// The source ended inside the frame that begins at this place.
    CutShort { at: u64 },
}

/// Why a reader gives nothing more.
#[derive(Clone, Copy, Debug)]
pub enum Ending {
    /// The source ended between two frames.
    End,
    /// The source failed.
    Lost { faults: u64 },
    /// These bytes are no header.
    Broken { at: u64, head: [u8; 16] },
    /// The source ended inside a frame.
    CutShort { at: u64 },
}

impl Ending {
    ghost use Rattle.std.specs.Prelude.{◌≡◌};
    ghost use Rattle.link_frames.specs.Next.{next_of};

    /// The answer that it stays with.
    pub fn next(self) -> Next
        ensures { result ≡ next_of self }
    {
        match self {
            Ending::End => Next::End,
            Ending::Lost { faults } => Next::Lost { faults },
            Ending::Broken { at, head } => Next::Broken { at, head },
            Ending::CutShort { at } => Next::CutShort { at },
        }
    }
}
