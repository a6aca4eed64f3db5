//! The request of texts and of the graph of its values.

ghost use Rattle.std.specs.Prelude.{◌≡◌, ◌≢◌, ◌<◌, ◌≤◌, ℕ, suc, IfOk, IfErr, length};
ghost use Rattle.hessian_graph.specs.InUse.{InOrderOfUse};
ghost use Rattle.hessian_graph.specs.Shape.{shape_of};
ghost use Rattle.dubbo_bodies.specs.Fields.{FIELDS, fields_of};
ghost use Rattle.dubbo_bodies.specs.RequestBody.{ValuesOf};
ghost use Rattle.dubbo_bodies.specs.Refusals.{LacksAttachments};

use crate::attachment::Attachments;
use crate::fault::RequestFault;
use crate::message::Request;
use crate::read_attachments::{last_attachments, without_last};
use hessian_graph::{Chars, Graph, canon};
use std::alloc::Global;

/// The request that has these texts and values, the last of which are its attachments.
///
/// A graph without roots would have no attachments.
pub(crate) fn request_of(
    alloc: Global,
    texts: Vec<Chars>,
    graph: Graph,
) -> Result<Request, RequestFault>
    requires all { length texts.items ≡ FIELDS }
    ensures ok { (count : ℕ) → length graph.roots ≡ suc count
        → IfOk result (λ r. (fields_of r ≡ texts.items) × ValuesOf (shape_of graph) count r) }
    ensures tables { IfOk result (λ r. InOrderOfUse r.args) }
    ensures why { (count : ℕ) → length graph.roots ≡ suc count
        → IfErr result (λ fault. fault ≢ RequestFault.OutOfMemory
        → (fault ≡ RequestFault.BadAttachments) × LacksAttachments (shape_of graph) count) }
{
    let Some(attachments) = last_attachments(alloc, &graph)? else {
        return Err(RequestFault::BadAttachments);
    };
    let args = canon(alloc, &without_last(graph))?;
    Ok(with_texts(texts, args, attachments))
}

/// The request of five texts.
fn with_texts(mut texts: Vec<Chars>, args: Graph, attachments: Attachments) -> Request
    requires { length texts.items ≡ FIELDS }
    ensures texts { fields_of result ≡ texts.items }
    ensures args { result.args ≡ args }
    ensures attachments { result.attachments ≡ attachments }
{
    let (Some(desc), Some(method), Some(version), Some(path), Some(dubbo)) = (
        texts.pop(),
        texts.pop(),
        texts.pop(),
        texts.pop(),
        texts.pop(),
    ) else {
        unreachable!()
    };
    Request {
        dubbo,
        path,
        version,
        method,
        desc,
        args,
        attachments,
    }
}
