//! The texts of a frame, which its reader goes past.

ghost use Rattle.std.specs.Prelude.{◌≡◌, ◌≤◌, length, IsErr, IfOk, IfSome};
ghost use Rattle.dubbo_play.specs.FirstRun.{SkipsText, SkipsTexts};

use hessian_text::{OutOfMemory, TextFault, read_text};
use std::alloc::Global;

/// The place behind so many texts from a place on, where they stand there whole.
pub fn skip_texts(
    alloc: Global,
    bytes: &[u8],
    at: usize,
    count: usize,
) -> Result<Option<usize>, OutOfMemory>
    requires { at ≤ length bytes.now }
    ensures texts { IfOk result (SkipsTexts count bytes.now at) }
    ensures within { IfOk result (λ found. IfSome found (λ end. end ≤ length bytes.now)) }
{
    if count == 0 {
        return Ok(Some(at));
    }
    match skip_text(alloc, bytes, at)? {
        Some(place) => skip_texts(alloc, bytes, place, count - 1),
        None => Ok(None),
    }
}

/// The place behind the text that stands at a place, where one stands there whole.
fn skip_text(alloc: Global, bytes: &[u8], at: usize) -> Result<Option<usize>, OutOfMemory>
    requires { at ≤ length bytes.now }
    ensures text { IfOk result (SkipsText bytes.now at) }
    ensures within { IfOk result (λ found. IfSome found (λ end. end ≤ length bytes.now)) }
{
    match read_text(alloc, bytes, at) {
        Ok(read) => Ok(Some(end_of(read))),
        Err(fault) => none_for(fault),
    }
}

/// No text, unless memory was wanting.
fn none_for(fault: TextFault) -> Result<Option<usize>, OutOfMemory>
    ensures wanting { fault ≡ TextFault.OutOfMemory → IsErr result }
    ensures none { IfOk result (λ found. found ≡ None) }
{
    match fault {
        TextFault::OutOfMemory => Err(OutOfMemory),
        _ => Ok(None),
    }
}

/// The place behind a text that was read.
fn end_of(read: (String, usize)) -> usize
    ensures { result ≡ read.1 }
{
    let (_text, end) = read;
    end
}
