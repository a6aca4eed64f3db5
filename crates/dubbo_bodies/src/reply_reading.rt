//! A reply that is read whole.

ghost use Rattle.std.specs.Prelude.{◌≡◌, ◌≢◌, IfOk, IfErr, MatchResult};
ghost use Rattle.hessian_reader.specs.Leaves.{hessian, node_limit};
ghost use Rattle.dubbo_bodies.specs.declared.message.Reply.{Reply as AReply};
ghost use Rattle.dubbo_bodies.specs.ReplyBody.{ReplyOf};
ghost use Rattle.dubbo_bodies.specs.RefusedReply.{IsOfReply, IsRefusedReply, IsSameReply};

use crate::message::Reply;
use crate::reply_fault::ReplyFault;
use crate::reply_reader::Reading;
use dubbo_header::Header;
use std::alloc::Global;

/// The reply that a header and a body are, or why they are none.
///
/// Of a kind with attachments these are dropped. No memory is taken for a stated length, only for values that came.
pub fn read_reply(alloc: Global, header: &Header, body: &[u8]) -> Result<Reply, ReplyFault>
    requires { IsOfReply header.now }

    // What is answered is read from them.
    ensures ok { IfOk result (ReplyOf hessian node_limit header.now body.now) }

    // What they are is answered, unless memory is wanted.
    ensures complete { (reply : AReply) → ReplyOf hessian node_limit header.now body.now reply
        → MatchResult result (λ read. IsSameReply read reply) (λ fault. fault ≡ ReplyFault.OutOfMemory) }

    // Nothing else is refused, and each refusal has the cause and the place of the definition.
    ensures refused { IfErr result (λ fault. fault ≢ ReplyFault.OutOfMemory → (reply : AReply) → ReplyOf hessian node_limit header.now body.now reply → ⊥) }
    ensures why { IfErr result (λ fault. fault ≢ ReplyFault.OutOfMemory → IsRefusedReply header.now body.now fault) }
{
    Reading::begin(alloc, header).fed(alloc, body).finish(alloc)
}
