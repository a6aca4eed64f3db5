//! Calls whose requests are too large.

ghost use Rattle.std.specs.Prelude.{◌↔◌, length, IsTrue, IfOk, MatchOption, All};
ghost use Rattle.hessian_graph.specs.Shape.{shape_of};
ghost use Rattle.hessian_writer.specs.Writable.{IsWritable};
ghost use Rattle.dubbo_bodies.specs.Descriptor.{HasArgs};
ghost use Rattle.call_plan.specs.Size.{IsFirstLarge, IsReady, IsSmall, IsTooLarge};

use crate::calls::Call;
use dubbo_bodies::{Request, WriteBodyFault, write_request};
use std::alloc::{AllocError, Global};

/// The most nodes of a request's body, one of which is the map of its attachments.
pub const NODE_LIMIT: usize = 999_998;

/// The line of the first call whose request is too large.
pub fn first_too_large(alloc: Global, calls: &[Call]) -> Result<Option<u32>, AllocError>
    requires { All IsReady calls.now }
    ensures { IfOk result (λ line. MatchOption line (All IsSmall calls.now) (IsFirstLarge calls.now)) }
{
    for call in calls {
        if is_too_large(alloc, &call.request)? {
            return Ok(Some(call.line));
        }
    }
    Ok(None)
}

/// Whether the body of a request has more nodes, or more bytes, than it may have.
fn is_too_large(alloc: Global, request: &Request) -> Result<bool, AllocError>
    requires args { HasArgs request.now.desc (length request.now.args.roots) }
    requires writable { IsWritable (shape_of request.now.args) }
    ensures { IfOk result (λ large. IsTrue large ↔ IsTooLarge request.now) }
{
    if request.args.parts().nodes.as_slice().len() >= NODE_LIMIT {
        return Ok(true);
    }
    match write_request(alloc, request) {
        Ok(_body) => Ok(false),
        Err(WriteBodyFault::TooLong { .. }) => Ok(true),
        Err(WriteBodyFault::OutOfMemory) => Err(AllocError),
    }
}
