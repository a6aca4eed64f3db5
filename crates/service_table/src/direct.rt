//! The direct call.

ghost use Rattle.std.specs.Prelude.{◌≡◌, suc, ◌-◌, ◌<◌, ◌^◌, length, IfOk};
ghost use Rattle.hessian_graph.specs.Shape.{shape_of};
ghost use Rattle.hessian_writer.specs.Writable.{IsWritable};
ghost use Rattle.dubbo_bodies.specs.declared.message.Reply.TheVariants.{Status};
ghost use Rattle.dubbo_bodies.specs.CanonBody.{GoesWith, HasFewNodes};
ghost use Rattle.dubbo_bodies.specs.Descriptor.{HasArgs};
ghost use Rattle.dubbo_bodies.specs.WrittenBody.{IsWritableReply};
ghost use Rattle.service_table.specs.Direct.{IsDirect, EndsIn, Outcome, IsSendable, NOT_FOUND, not_found, BAD_RESPONSE, too_long};
ghost use Rattle.service_table.specs.Endings.{IsCanonEnding, status_of};
ghost use Rattle.service_table.specs.Replies.{answer};

use crate::answers::answer;
use crate::first::copy_text;
use crate::kind::Kind;
use crate::services::Services;
use dubbo_bodies::{Reply, Request, WriteBodyFault, write_reply};
use hessian_graph::{Graph, OutOfMemory, canon};
use std::alloc::{AllocError, Global};

/// The status of a call that no service is there for.
const SERVICE_NOT_FOUND: u8 = 60;

/// The status of a reply that no frame has room for.
const REPLY_TOO_LONG: u8 = 50;

/// How the call of a request ends, by the service that it asks for.
///
/// Where there is no such service it is status 60. Where the body of the reply would have more bytes than a frame has room
/// for, 8,388,608, it is status 50. The reply's graph has one node more than the arguments at most.
pub fn call(alloc: Global, services: &Services, request: &Request) -> Result<Reply, OutOfMemory>
    requires args { HasArgs request.now.desc (length request.now.args.roots) }
    requires writable { IsWritable (shape_of request.now.args) }
    requires few { length request.now.args.nodes < 2 ^ 31 - 1 }
    ensures direct { IfOk result (IsDirect services.now request.now) }
    ensures sendable { IfOk result IsSendable }
    ensures nodes { IfOk result (λ reply. HasFewNodes reply (suc (length request.now.args.nodes))) }
{
    match services.kind_for(alloc, request)? {
        Some(kind) => answered(alloc, kind, &request.args),
        None => not_found(alloc),
    }
}

/// How a call of this kind ends with these arguments.
fn answered(alloc: Global, kind: Kind, args: &Graph) -> Result<Reply, OutOfMemory>
    requires writable { IsWritable (shape_of args.now) }
    requires few { length args.now.nodes < 2 ^ 31 - 1 }
    requires roots { length args.now.roots < 2 ^ 31 }
    ensures ends { IfOk result (EndsIn (Outcome kind (shape_of args.now))) }
    ensures sendable { IfOk result IsSendable }
    ensures nodes { IfOk result (λ reply. HasFewNodes reply (suc (length args.now.nodes))) }
{
    let reply = reply_of(alloc, kind, args)?;
    match write_reply(alloc, &reply) {
        Ok(_body) => Ok(reply),
        Err(WriteBodyFault::TooLong { .. }) => too_long(alloc),
        Err(WriteBodyFault::OutOfMemory) => Err(AllocError),
    }
}

/// What a service of this kind answers to these arguments, whatever its length.
fn reply_of(alloc: Global, kind: Kind, args: &Graph) -> Result<Reply, OutOfMemory>
    requires writable { IsWritable (shape_of args.now) }
    requires few { length args.now.nodes < 2 ^ 31 - 1 }
    requires roots { length args.now.roots < 2 ^ 31 }
    ensures ends { IfOk result (EndsIn (IsCanonEnding (answer kind (shape_of args.now)))) }
    ensures writable { IfOk result IsWritableReply }
    ensures goes { IfOk result (λ reply. GoesWith reply (status_of reply)) }
    ensures nodes { IfOk result (λ reply. HasFewNodes reply (suc (length args.now.nodes))) }
{
    // Parts of a graph are sound, so an answer that is made of them has a canonical form.
    let _args = args.parts();
    let form = canon(alloc, args)?;
    let _form = form.parts();
    answer(alloc, kind, form)
}

/// The reply where no service is there.
fn not_found(alloc: Global) -> Result<Reply, OutOfMemory>
    ensures { IfOk result (λ reply. reply ≡ Status NOT_FOUND not_found) }
{
    let text = copy_text(alloc, "service not found")?;
    Ok(Reply::Status {
        code: SERVICE_NOT_FOUND,
        text,
    })
}

/// The reply in place of one that no frame has room for.
fn too_long(alloc: Global) -> Result<Reply, OutOfMemory>
    ensures { IfOk result (λ reply. reply ≡ Status BAD_RESPONSE too_long) }
{
    let text = copy_text(alloc, "reply too long")?;
    Ok(Reply::Status {
        code: REPLY_TOO_LONG,
        text,
    })
}
