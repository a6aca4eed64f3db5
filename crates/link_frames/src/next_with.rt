//! What a reader answers whose bodies are fed as they come.

use crate::next::Ending;
use dubbo_header::Header;

/// What stands next in a stream, a frame's body being fed already.
#[derive(Clone, Copy, Debug, PartialEq, Eq)]
pub enum NextWith {
    /// The next whole frame.
    Frame { header: Header },
    /// The source ended between two frames.
    End,
    /// The source failed; `faults` counts the reads of this reader that did.
    Lost { faults: u64 },
    /// The sixteen bytes `head` at this place are no header.
    Broken { at: u64, head: [u8; 16] },
    /// The source ended inside the frame that begins at this place.
    CutShort { at: u64 },
}

impl Ending {
    ghost use Rattle.std.specs.Prelude.{◌≡◌};
    ghost use Rattle.link_frames.specs.NextWith.{with_of};

    /// The answer that it stays with.
    pub fn next_with(self) -> NextWith
        ensures { result ≡ with_of self }
    {
        match self {
            Ending::End => NextWith::End,
            Ending::Lost { faults } => NextWith::Lost { faults },
            Ending::Broken { at, head } => NextWith::Broken { at, head },
            Ending::CutShort { at } => NextWith::CutShort { at },
        }
    }
}
