//! The frame that asks for a call.

ghost use Rattle.std.specs.Prelude.{◌≡◌, ◌≤◌, ◌+◌, ◌++◌, ℕ, ℤ, [], ◌∷◌, length, Some, IsTrue, IfOk, IfSome, OnOk, OnErr};
ghost use Rattle.dubbo_play.specs.FirstFrames.{IsRequest, IsRequestBody, IsTextMap, WrittenTexts, names, attachments, request_header};
ghost use Rattle.dubbo_play.specs.FirstRun.{Adds, Grows, RequestAt, IsRequestFrom, FindsFrame, EndsIn};
ghost use Rattle.hessian_scalars.specs.Read.{IsSpelledAt};
ghost use Rattle.hessian_scalars.specs.declared.scalar.Scalar.TheVariants as scalars;

use crate::first_frames::{Found, HEADER, HESSIAN_2, found_at, header_at, int_at, write_frame};
use crate::first_texts::skip_texts;
use dubbo_header::Header;
use hessian_scalars::{OutOfMemory, write_int};
use hessian_text::write_text;
use std::alloc::Global;

/// How many texts stand before a request's argument.
const NAMES: usize = 5;

/// Appends the request of a call.
pub fn write_request(
    alloc: Global,
    asks: &mut Vec<u8>,
    id: u64,
    path: &str,
    method: &str,
    argument: i32,
) -> Result<(), OutOfMemory>
    requires path { length path.now ≤ 255 }
    requires method { length method.now ≤ 255 }
    ensures ok { OnOk result
        (Adds (IsRequest id path.now method.now argument) asks.old.items asks.new.items) }
    ensures err { OnErr result (Grows asks.old.items asks.new.items) }
{
    match make_body(alloc, path, method, argument) {
        Ok(body) => write_frame(asks, &make_header(id, body.len() as u32), &body),
        Err(fault) => Err(fault),
    }
}

/// The header of a request that wants a reply.
fn make_header(id: u64, length: u32) -> Header
    ensures { result ≡ request_header id length }
{
    Header {
        request: true,
        two_way: true,
        event: false,
        serial: HESSIAN_2,
        status: 0,
        id,
        length,
    }
}

/// Whether a header is that of a request that wants a reply.
fn is_request(header: &Header) -> bool
    ensures { (id length : ℕ) → header.now ≡ request_header id length → IsTrue result }
{
    header.request && header.two_way && !header.event && header.serial == HESSIAN_2
}

/// The body of a request.
fn make_body(alloc: Global, path: &str, method: &str, argument: i32) -> Result<Vec<u8>, OutOfMemory>
    requires path { length path.now ≤ 255 }
    requires method { length method.now ≤ 255 }
    ensures says { IfOk result (λ body. IsRequestBody path.now method.now argument body.items) }
    ensures short { IfOk result (λ body. length body.items ≤ 20000) }
{
    let mut body = Vec::new(alloc);
    write_names(alloc, &mut body, path, method)?;
    write_int(alloc, &mut body, argument)?;
    write_attachments(alloc, &mut body, path)?;
    Ok(body)
}

/// Appends what a request names before its argument.
fn write_names(
    alloc: Global,
    out: &mut Vec<u8>,
    path: &str,
    method: &str,
) -> Result<(), OutOfMemory>
    ensures { OnOk result
        (Adds (WrittenTexts (names path.now method.now)) out.old.items out.new.items) }
{
    write_text(alloc, out, "2.0.2")?;
    write_text(alloc, out, path)?;
    write_text(alloc, out, "")?;
    write_text(alloc, out, method)?;
    write_text(alloc, out, "Ljava/lang/Object;")?;
    Ok(())
}

/// Appends what a request attaches behind its argument.
fn write_attachments(alloc: Global, out: &mut Vec<u8>, path: &str) -> Result<(), OutOfMemory>
    ensures { OnOk result (Adds (IsTextMap (attachments path.now)) out.old.items out.new.items) }
{
    out.extend_from_slice(b"H")?;
    write_pair(alloc, out, "path", path)?;
    write_pair(alloc, out, "interface", path)?;
    write_pair(alloc, out, "version", "")?;
    write_pair(alloc, out, "timeout", "1000")?;
    out.extend_from_slice(b"Z")?;
    Ok(())
}

/// Appends a key and its value.
fn write_pair(alloc: Global, out: &mut Vec<u8>, key: &str, value: &str) -> Result<(), OutOfMemory>
    ensures { OnOk result
        (Adds (WrittenTexts (key.now ∷ value.now ∷ [])) out.old.items out.new.items) }
{
    write_text(alloc, out, key)?;
    write_text(alloc, out, value)?;
    Ok(())
}

/// The request that stands at a place, where one stands there whole.
pub fn read_request(alloc: Global, bytes: &[u8], at: usize) -> Result<Option<Found>, OutOfMemory>
    requires { at ≤ length bytes.now }
    ensures request { IfOk result (FindsFrame (RequestAt bytes.now at)) }
    ensures end { IfOk result (λ found. IfSome found (EndsIn bytes.now at)) }
{
    let Some(header) = header_at(bytes, at) else {
        return Ok(None);
    };
    match skip_texts(alloc, bytes, at + HEADER, NAMES)? {
        Some(place) => Ok(request_with(bytes, at, &header, place)),
        None => Ok(None),
    }
}

/// The request with this header and the argument at this place, where one stands there whole.
fn request_with(bytes: &[u8], at: usize, header: &Header, place: usize) -> Option<Found>
    requires header { at + 16 ≤ length bytes.now }
    requires place { place ≤ length bytes.now }
    ensures request { (id argument_end end : ℕ) (argument : ℤ) → IsRequestFrom bytes.now at header.now id end
        → IsSpelledAt bytes.now place (scalars.Int argument) argument_end
        → result ≡ Some (record { id = id; value = argument; end = end }) }
    ensures end { IfSome result (EndsIn bytes.now at) }
{
    let (argument, _) = int_at(bytes, place)?;
    if !is_request(header) {
        return None;
    }
    found_at(bytes, at, header, argument)
}
