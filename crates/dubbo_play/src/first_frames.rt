//! Frames of the first link: a header, and the body that it announces.

ghost use Rattle.std.specs.Prelude.{◌≡◌, ◌<◌, ◌≤◌, ◌+◌, ◌++◌, ℕ, ℤ, List, length, drop, Some, FitsSigned, IfSome, OnOk, OnErr};
ghost use Rattle.std.specs.Int.{w32};
ghost use Rattle.dubbo_header.specs.Header.{IsHeader, header_bytes};
ghost use Rattle.dubbo_header.specs.declared.header.Header.{Header};
ghost use Rattle.hessian_scalars.specs.Read.{IsSpelledAt};
ghost use Rattle.hessian_scalars.specs.declared.scalar.Scalar.TheVariants as scalars;
ghost use Rattle.dubbo_play.specs.FirstRun.{Grows, EndsIn};

use dubbo_header::{Header, read_header, write_header};
use hessian_scalars::{OutOfMemory, read_int};

/// The number of Hessian 2 among the serializations.
pub const HESSIAN_2: u8 = 2;

/// The bytes of a header.
pub const HEADER: usize = 16;

/// What a frame says: the id of its call, the int that it carries, and the place behind it.
#[derive(Clone, Copy, Debug, PartialEq, Eq)]
pub struct Found {
    pub id: u64,
    pub value: i32,
    pub end: usize,
}

/// Appends a header and its body.
pub fn write_frame(out: &mut Vec<u8>, header: &Header, body: &[u8]) -> Result<(), OutOfMemory>
    requires serial { header.now.serial < 32 }
    requires short { header.now.length ≤ 8388608 }
    ensures ok { OnOk result (out.new.items ≡ out.old.items ++ (header_bytes header.now ++ body.now)) }
    ensures err { OnErr result (Grows out.old.items out.new.items) }
{
    out.extend_from_slice(&write_header(header))?;
    out.extend_from_slice(body)
}

/// The header that stands at a place.
pub fn header_at(bytes: &[u8], at: usize) -> Option<Header>
    requires { at ≤ length bytes.now }
    ensures header { (h : Header) (rest : List ℕ) → IsHeader h → drop at bytes.now ≡ header_bytes h ++ rest
        → result ≡ Some h }
    ensures within { IfSome result (λ _. at + 16 ≤ length bytes.now) }
{
    read_header(bytes[at..].first_chunk()?).ok()
}

/// The int that is spelled at a place, and the place behind it.
pub fn int_at(bytes: &[u8], at: usize) -> Option<(i32, usize)>
    requires { at ≤ length bytes.now }
    ensures int { (v : ℤ) (end : ℕ) → IsSpelledAt bytes.now at (scalars.Int v) end → result ≡ Some (v, end) }
    ensures within { IfSome result (λ found. found.1 ≤ length bytes.now) }
    ensures fits { IfSome result (λ found. FitsSigned w32 found.0) }
{
    read_int(bytes, at).ok()
}

/// The frame with this header and this int, where its body ends within the bytes.
pub fn found_at(bytes: &[u8], at: usize, header: &Header, value: i32) -> Option<Found>
    requires { at + 16 ≤ length bytes.now }
    ensures whole { at + 16 + header.now.length ≤ length bytes.now
        → result ≡ Some (record { id = header.now.id; value = value; end = at + 16 + header.now.length }) }
    ensures end { IfSome result (EndsIn bytes.now at) }
{
    let body = at + HEADER;
    let length = header.length as usize;
    if bytes.len() - body < length {
        return None;
    }
    Some(Found {
        id: header.id,
        value,
        end: body + length,
    })
}
