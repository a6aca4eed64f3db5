//! What came of a reply.

ghost use Rattle.std.specs.Prelude.{◌≡◌, ◌+◌, ◌<◌, ◌≤◌, ◌^◌, ◌++◌, [], length};

use crate::fed_bytes::FedBytes;
use dubbo_header::Header;

/// What came of a reply.
#[derive(Drop)]
pub(crate) struct Came {
    /// The header of its frame.
    pub header: Header,
    /// How many bytes of its body.
    pub count: usize,
    /// These bytes.
    pub fed: FedBytes,
    ghost counted: { count ≡ length fed.bytes },
    ghost fits: { count < 2 ^ 64 },
}

impl Came {
    /// A header, and no byte of a body.
    pub(crate) fn nothing(header: &Header) -> Came
        ensures header { result.header ≡ header.now }
        ensures fed { result.fed.bytes ≡ [] }
    {
        Came {
            header: *header,
            count: 0,
            fed: FedBytes::empty(),
        }
    }

    /// The same, and the next bytes.
    pub(crate) fn with(&self, piece: &[u8]) -> Came
        requires { self.now.count + length piece.now ≤ usize.MAX }
        ensures header { result.header ≡ self.now.header }
        ensures fed { result.fed.bytes ≡ self.now.fed.bytes ++ piece.now }
    {
        Came {
            header: self.header,
            count: self.count + piece.len(),
            fed: self.fed.extended(piece),
        }
    }
}
