//! The frame that bytes begin with.
ghost use Rattle.std.specs.Prelude.{◌≡◌, ◌<◌, ◌++◌, length, MatchOption};
ghost use Rattle.link_frames.specs.Frames.{BeginsNoFrame};
ghost use Rattle.dubbo_main.specs.Finding.{IsFirst};

use dubbo_header::{Header, read_header};

/// A frame at the front of some bytes, and what stands behind it.
#[derive(Clone, Copy)]
pub struct Found<'a> {
    /// The header of the frame.
    pub header: Header,
    /// Its body, of as many bytes as the header states.
    pub body: &'a [u8],
    /// The bytes behind the frame.
    pub behind: &'a [u8],
}

/// The frame at the front of the bytes, or none where they begin no whole frame.
pub fn first_frame(bytes: &[u8]) -> Option<Found<'_>>
    ensures { MatchOption result (BeginsNoFrame bytes.now)
        (λ found. IsFirst bytes.now found.header found.body.now found.behind.now) }
{
    let (head, behind) = bytes.split_first_chunk::<16>()?;
    match read_header(head) {
        Ok(header) => with_body(header, behind),
        Err(_) => None,
    }
}

/// The frame with this header, whose body is the front of these bytes, or none where they are too few.
fn with_body(header: Header, bytes: &[u8]) -> Option<Found<'_>>
    ensures { MatchOption result (length bytes.now < header.length) (λ found. (found.header ≡ header)
        × (length found.body.now ≡ header.length) × (bytes.now ≡ found.body.now ++ found.behind.now)) }
{
    let count = header.length as usize;
    if bytes.len() < count {
        return None;
    }
    let (body, behind) = bytes.split_at(count);
    Some(Found {
        header,
        body,
        behind,
    })
}
