//! Requests that are read whole.

ghost use Rattle.std.specs.Prelude.{◌≡◌, ◌≢◌, IfOk, IfErr, MatchResult};
ghost use Rattle.hessian_graph.specs.InUse.{InOrderOfUse};
ghost use Rattle.hessian_reader.specs.Leaves.{hessian, node_limit};
ghost use Rattle.dubbo_bodies.specs.declared.message.Request.{Request as ARequest};
ghost use Rattle.dubbo_bodies.specs.RequestBody.{RequestOf};
ghost use Rattle.dubbo_bodies.specs.RequestReading.{SaysTheSame, IsRefusedRequest};

use crate::fault::RequestFault;
use crate::message::Request;
use crate::request_reader::Progress;
use dubbo_header::Header;
use std::alloc::Global;

/// Reads the request that a header and a body are. Of the header the serialization counts alone.
///
/// `BadSerial` comes before all other refusals. The others come in the order of the bytes, and `BadAttachments` behind them.
pub fn read_request(alloc: Global, header: &Header, body: &[u8]) -> Result<Request, RequestFault>
    // What is read is the request that the header and the body are.
    ensures ok { IfOk result (RequestOf hessian node_limit header.now body.now) }

    // The types and classes of its arguments stand in the order of first use, each once.
    ensures tables { IfOk result (λ r. InOrderOfUse r.args) }

    // Where they are a request, it is read, unless memory is wanted.
    ensures complete { (r : ARequest) → RequestOf hessian node_limit header.now body.now r
        → MatchResult result (λ read. SaysTheSame read r) (λ fault. fault ≡ RequestFault.OutOfMemory) }

    // Nothing that is a request is refused.
    ensures refused { IfErr result (λ fault. fault ≢ RequestFault.OutOfMemory → (r : ARequest)
        → RequestOf hessian node_limit header.now body.now r → ⊥) }

    // What is refused is refused for the cause, and at the place, that the definition of refusals gives.
    ensures why { IfErr result (λ fault. fault ≢ RequestFault.OutOfMemory → IsRefusedRequest header.now body.now fault) }
{
    let progress = Progress::begin(alloc, header).fed(alloc, 0, body);
    progress.finish(alloc, body.len())
}
