//! The frame that answers a call.

ghost use Rattle.std.specs.Prelude.{◌≡◌, ◌≤◌, ◌++◌, ℕ, length, IsTrue, IfOk, IfSome, OnOk, OnErr};
ghost use Rattle.dubbo_play.specs.FirstFrames.{IsReply, IsReplyBody, reply_header};
ghost use Rattle.dubbo_play.specs.FirstRun.{Adds, Grows, ReplyAt, FindsFrame, EndsIn};

use crate::first_frames::{Found, HEADER, HESSIAN_2, found_at, header_at, int_at, write_frame};
use dubbo_header::Header;
use hessian_scalars::{OutOfMemory, write_int};
use std::alloc::Global;

/// The status of a reply to a call that went well.
const OK: u8 = 20;

/// The int that says in such a reply that a value follows, and its one byte.
const VALUE: i32 = 1;

const VALUE_BYTE: u8 = 0x91;

/// Appends the reply to a call, with a value.
pub fn write_reply(
    alloc: Global,
    answers: &mut Vec<u8>,
    id: u64,
    value: i32,
) -> Result<(), OutOfMemory>
    ensures ok { OnOk result (Adds (IsReply id value) answers.old.items answers.new.items) }
    ensures err { OnErr result (Grows answers.old.items answers.new.items) }
{
    match make_body(alloc, value) {
        Ok(body) => write_frame(answers, &make_header(id, body.len() as u32), &body),
        Err(fault) => Err(fault),
    }
}

/// The header of a reply to a call that went well.
fn make_header(id: u64, length: u32) -> Header
    ensures { result ≡ reply_header id length }
{
    Header {
        request: false,
        two_way: false,
        event: false,
        serial: HESSIAN_2,
        status: OK,
        id,
        length,
    }
}

/// Whether a header is that of a reply to a call that went well.
fn is_reply(header: &Header) -> bool
    ensures { (id length : ℕ) → header.now ≡ reply_header id length → IsTrue result }
{
    !header.request && !header.event && header.serial == HESSIAN_2 && header.status == OK
}

/// The body of a reply with a value.
fn make_body(alloc: Global, value: i32) -> Result<Vec<u8>, OutOfMemory>
    ensures says { IfOk result (λ body. IsReplyBody value body.items) }
    ensures short { IfOk result (λ body. length body.items ≤ 10) }
{
    let mut body = Vec::from_slice(alloc, &[VALUE_BYTE])?;
    write_int(alloc, &mut body, value)?;
    Ok(body)
}

/// The reply with a value that stands at a place, where one stands there whole.
pub fn read_reply(bytes: &[u8], at: usize) -> Option<Found>
    requires { at ≤ length bytes.now }
    ensures reply { FindsFrame (ReplyAt bytes.now at) result }
    ensures end { IfSome result (EndsIn bytes.now at) }
{
    let header = header_at(bytes, at)?;
    let (kind, place) = int_at(bytes, at + HEADER)?;
    let (value, _) = int_at(bytes, place)?;
    if !is_reply(&header) {
        return None;
    }
    if kind != VALUE {
        return None;
    }
    found_at(bytes, at, &header, value)
}
