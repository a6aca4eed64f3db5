//! The direct call of a request that was read, and the reply to it.

ghost use Rattle.std.specs.Prelude.{◌≡◌, ◌≤◌, length, IfOk, Some};
ghost use Rattle.hessian_writer.specs.Leaves.{hessian, hessian_forms};
ghost use Rattle.dubbo_header.specs.declared.header.Header.{Header as AHeader};
ghost use Rattle.dubbo_bodies.specs.WrittenBody.{LIMIT, WrittenReply};
ghost use Rattle.service_table.specs.Direct.{IsSendable};
ghost use Rattle.service_table.specs.Endings.{status_of};
ghost use Rattle.provider_pool.specs.Replies.{Replies, bad_request};
ghost use Rattle.provider_pool.specs.Writes.{HoldsFrame, RepliesWith, frame_of};

use dubbo_bodies::{Reply, RequestFault, RequestReader, WriteBodyFault, request_text, write_reply};
use hessian_graph::{Chars, OutOfMemory};
use service_table::{Services, call};
use std::alloc::{AllocError, Global};

/// The status of a value or an exception.
const OK: u8 = 20;

/// The status of a request that can't be read.
const BAD_REQUEST: u8 = 40;

/// A reply as a frame has it.
#[derive(Drop)]
pub(crate) struct Written {
    /// The status in the frame's header.
    pub(crate) status: u8,
    /// The frame's body.
    pub(crate) body: Vec<u8>,
}

/// Makes the direct call of a request that wants no reply. A body that can't be read asks for none.
pub(crate) fn call_alone(
    alloc: Global,
    body: RequestReader,
    services: &Services,
) -> Result<(), OutOfMemory>
    requires { (header : AHeader) × HoldsFrame body header }
{
    match body.finish() {
        Ok(request) => {
            call(alloc, services, &request)?;
            Ok(())
        }
        Err(RequestFault::OutOfMemory) => Err(AllocError),
        Err(_) => Ok(()),
    }
}

/// The reply to a request that was read, as a frame has it.
pub(crate) fn written_reply(
    alloc: Global,
    body: RequestReader,
    services: &Services,
) -> Result<Written, OutOfMemory>
    requires { (header : AHeader) × HoldsFrame body header }
    ensures { (header : AHeader) → HoldsFrame body header → IfOk result
        (λ written. RepliesWith services.now (frame_of header body.fed) written.status written.body.items) }
{
    let reply = reply_to(alloc, body, services)?;
    let body = body_of(alloc, &reply)?;
    Ok(Written {
        status: status(&reply),
        body,
    })
}

/// The reply to a request that was read.
fn reply_to(alloc: Global, body: RequestReader, services: &Services) -> Result<Reply, OutOfMemory>
    requires { (header : AHeader) × HoldsFrame body header }
    ensures replies { (header : AHeader) → HoldsFrame body header → IfOk result
        (λ reply. Replies services.now (frame_of header body.fed) reply) }
    ensures sendable { IfOk result IsSendable }
{
    match body.finish() {
        Ok(request) => call(alloc, services, &request),
        Err(fault) => match fault {
            RequestFault::OutOfMemory => Err(AllocError),
            fault => refusal(alloc, fault),
        },
    }
}

/// The reply to a request that can't be read.
fn refusal(alloc: Global, fault: RequestFault) -> Result<Reply, OutOfMemory>
    ensures reply { IfOk result (λ reply. reply ≡ bad_request fault) }
    ensures sendable { IfOk result IsSendable }
{
    let why = request_text(fault);
    let mut text = String::from_str(alloc, "bad request: ")?;
    text.push_str(why.as_str())?;
    Ok(Reply::Status {
        code: BAD_REQUEST,
        text: Chars::from(text),
    })
}

/// The body of a reply.
fn body_of(alloc: Global, reply: &Reply) -> Result<Vec<u8>, OutOfMemory>
    requires { IsSendable reply.now }
    ensures body { IfOk result (λ body. WrittenReply hessian hessian_forms reply.now body.items) }
    ensures short { IfOk result (λ body. length body.items ≤ LIMIT) }
{
    match write_reply(alloc, reply) {
        Ok(body) => Ok(body),
        Err(WriteBodyFault::OutOfMemory) => Err(AllocError),
        Err(WriteBodyFault::TooLong { .. }) => unreachable!(),
    }
}

/// The status that goes into the header of a reply.
fn status(reply: &Reply) -> u8
    ensures { result ≡ status_of reply.now }
{
    match reply {
        Reply::Value(_) | Reply::Threw(_) => OK,
        Reply::Status { code, .. } => *code,
    }
}
