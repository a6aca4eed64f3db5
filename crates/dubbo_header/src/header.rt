//! A header and its sixteen bytes, both ways.

ghost use Rattle.std.specs.Prelude.{◌≡◌, ◌<◌, ◌≤◌, ◌↔◌, ℕ, Ok, Err};
ghost use Rattle.dubbo_header.specs.Header.{Spells, HasBadMagic, IsTooLong, header_bytes};
ghost use Rattle.dubbo_header.specs.declared.header.TheConstants.{BODY_LIMIT};

use crate::flags::{self, Flags};
use thiserror::Error;

/// The most bytes that a body may have: Dubbo's default payload limit.
pub const BODY_LIMIT: u32 = 8_388_608;

/// The first two bytes of each frame.
const MAGIC: [u8; 2] = [0xda, 0xbb];

/// Why sixteen bytes are no header.
#[derive(Clone, Copy, Debug, PartialEq, Eq, Error)]
pub enum HeaderFault {
    /// The first two bytes, which aren't xda xbb.
    #[error("the magic is {first:02x}{second:02x}")]
    BadMagic { first: u8, second: u8 },
    /// The stated length of the body, in bytes, which is above `BODY_LIMIT`.
    #[error("a body of {length} bytes is too long")]
    TooLong { length: u32 },
}

/// What stands before the body of a frame.
#[derive(Clone, Copy, Debug, PartialEq, Eq)]
pub struct Header {
    /// A request, and no reply.
    pub request: bool,
    /// A reply is wanted.
    pub two_way: bool,
    /// An event, such as a heartbeat, and no call.
    pub event: bool,
    /// The number of the body's serialization, below 32; Hessian 2 has 2.
    pub serial: u8,
    /// How a call ended, in a reply; 0 in a request.
    pub status: u8,
    /// The number that a request and its reply share.
    pub id: u64,
    /// The length of the body, in bytes.
    pub length: u32,
}

/// The bytes of a header.
#[tactic(auto, unfolding(crate::specs::Header::header_bytes))]
pub fn write_header(header: &Header) -> [u8; 16]
    requires serial { header.now.serial < 32 }
    requires length { header.now.length ≤ BODY_LIMIT }
    ensures { result ≡ header_bytes header.now }
{
    let flags = flags::pack(Flags {
        request: header.request,
        two_way: header.two_way,
        event: header.event,
        serial: header.serial,
    });
    let mut bytes = [0; 16];
    bytes[..2].copy_from_slice(&MAGIC);
    bytes[2] = flags;
    bytes[3] = header.status;
    bytes[4..12].copy_from_slice(&header.id.to_be_bytes());
    bytes[12..].copy_from_slice(&header.length.to_be_bytes());
    bytes
}

/// The header that sixteen bytes are.
#[tactic(auto, unfolding(crate::specs::Header::header_bytes))]
pub fn read_header(bytes: &[u8; 16]) -> Result<Header, HeaderFault>
    ensures ok { (h : Header) → (result ≡ Ok h) ↔ Spells bytes.now h }
    ensures bad_magic { (first second : ℕ)
        → (result ≡ Err (HeaderFault.BadMagic first second)) ↔ HasBadMagic bytes.now first second }
    ensures too_long { (length : ℕ)
        → (result ≡ Err (HeaderFault.TooLong length)) ↔ IsTooLong bytes.now length }
{
    let [first, second, flags, status, .., l3, l2, l1, l0] = *bytes;
    if [first, second] != MAGIC {
        return Err(HeaderFault::BadMagic { first, second });
    }
    let length = u32::from_be_bytes([l3, l2, l1, l0]);
    if length > BODY_LIMIT {
        return Err(HeaderFault::TooLong { length });
    }
    let Flags {
        request,
        two_way,
        event,
        serial,
    } = flags::unpack(flags);
    let [_, _, _, _, i7, i6, i5, i4, i3, i2, i1, i0, ..] = *bytes;
    let id = u64::from_be_bytes([i7, i6, i5, i4, i3, i2, i1, i0]);
    Ok(Header {
        request,
        two_way,
        event,
        serial,
        status,
        id,
        length,
    })
}
