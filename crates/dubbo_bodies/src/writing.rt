//! Writing the bodies of requests and replies.

ghost use Rattle.std.specs.Prelude.{◌≡◌, ◌≢◌, ◌≤◌, ◌↔◌, ◌∷◌, [], ℕ, length, IfOk, IsTrue, Err};
ghost use Rattle.hessian_graph.specs.Shape.{shape_of};
ghost use Rattle.hessian_graph.specs.Reading.{IntSpelling};
ghost use Rattle.hessian_graph.specs.declared.value.Value.TheVariants.{Null};
ghost use Rattle.hessian_writer.specs.Leaves.{hessian, hessian_forms};
ghost use Rattle.hessian_writer.specs.Writable.{IsWritable};
ghost use Rattle.dubbo_bodies.specs.Descriptor.{HasArgs};
ghost use Rattle.dubbo_bodies.specs.WrittenBody.{LIMIT, IsTooLong, IsWritableReply, WrittenRequest, WrittenReply, KindAndGraph};

use crate::fault::WriteBodyFault;
use crate::limit::within_limit;
use crate::message::{Reply, Request};
use crate::pieces::{field_bytes, write_map};
use hessian_graph::{Chars, Graph, OutOfMemory, Value};
use hessian_scalars::write_int;
use hessian_text::write_text;
use hessian_writer::write_graph_behind;
use std::alloc::Global;

/// The kind of a reply with an exception.
const EXCEPTION: i32 = 0;

/// The kind of a reply with a value.
const VALUE: i32 = 1;

/// The kind of a reply with the value null, which is not written.
const NULL: i32 = 2;

/// The body of a request: five texts, the arguments and a map of the attachments, with one table of types and one of classes.
///
/// Of `TooLong` the length is that of the body, in bytes. A body may have 8,388,608.
pub fn write_request(alloc: Global, request: &Request) -> Result<Vec<u8>, WriteBodyFault>
    requires args { HasArgs request.now.desc (length request.now.args.roots) }
    requires writable { IsWritable (shape_of request.now.args) }
    ensures body { IfOk result (λ body. WrittenRequest hessian hessian_forms request.now body.items) }
    ensures short { IfOk result (λ body. length body.items ≤ LIMIT) }
    ensures long { (count : ℕ) → result ≢ Err WriteBodyFault.OutOfMemory → (result ≡ Err (WriteBodyFault.TooLong count)) ↔ IsTooLong (WrittenRequest hessian hessian_forms request.now) count }
{
    let body = request_bytes(alloc, request)?;
    within_limit(body)
}

/// The bytes of a request's body, however many.
fn request_bytes(alloc: Global, request: &Request) -> Result<Vec<u8>, OutOfMemory>
    requires { IsWritable (shape_of request.now.args) }
    ensures { IfOk result (λ body. WrittenRequest hessian hessian_forms request.now body.items) }
{
    // Parts of a graph are sound, so the map behind it is no node that it names.
    let _parts = request.args.parts();
    let texts = field_bytes(alloc, request)?;
    let mut body = write_graph_behind(alloc, texts, &request.args)?;
    write_map(alloc, &mut body, request.attachments.as_slice())?;
    Ok(body)
}

/// The body of a reply: a kind and the value or the exception, or the text of a status.
///
/// Of `TooLong` the length is that of the body, in bytes. A body may have 8,388,608.
pub fn write_reply(alloc: Global, reply: &Reply) -> Result<Vec<u8>, WriteBodyFault>
    requires { IsWritableReply reply.now }
    ensures body { IfOk result (λ body. WrittenReply hessian hessian_forms reply.now body.items) }
    ensures short { IfOk result (λ body. length body.items ≤ LIMIT) }
    ensures long { (count : ℕ) → result ≢ Err WriteBodyFault.OutOfMemory → (result ≡ Err (WriteBodyFault.TooLong count)) ↔ IsTooLong (WrittenReply hessian hessian_forms reply.now) count }
{
    let body = reply_bytes(alloc, reply)?;
    within_limit(body)
}

/// The bytes of a reply's body, however many.
fn reply_bytes(alloc: Global, reply: &Reply) -> Result<Vec<u8>, OutOfMemory>
    requires { IsWritableReply reply.now }
    ensures { IfOk result (λ body. WrittenReply hessian hessian_forms reply.now body.items) }
{
    match reply {
        Reply::Value(graph) => {
            if is_null(graph) {
                kind_bytes(alloc, NULL)
            } else {
                outcome_bytes(alloc, VALUE, graph)
            }
        }
        Reply::Threw(graph) => outcome_bytes(alloc, EXCEPTION, graph),
        Reply::Status { text, .. } => text_bytes(alloc, text),
    }
}

/// Whether a graph is the value null alone.
fn is_null(graph: &Graph) -> bool
    ensures { IsTrue result ↔ graph.now.roots ≡ Null ∷ [] }
{
    matches!(graph.parts().roots.as_slice(), [Value::Null])
}

/// A kind by itself.
fn kind_bytes(alloc: Global, kind: i32) -> Result<Vec<u8>, OutOfMemory>
    ensures { IfOk result (λ out. IntSpelling hessian_forms kind out.items) }
{
    let mut out = Vec::new(alloc);
    write_int(alloc, &mut out, kind)?;
    Ok(out)
}

/// A kind, and behind it a graph.
fn outcome_bytes(alloc: Global, kind: i32, graph: &Graph) -> Result<Vec<u8>, OutOfMemory>
    requires { IsWritable (shape_of graph.now) }
    ensures { IfOk result (λ out. KindAndGraph hessian hessian_forms kind graph.now out.items) }
{
    let out = kind_bytes(alloc, kind)?;
    write_graph_behind(alloc, out, graph)
}

/// A text by itself.
fn text_bytes(alloc: Global, text: &Chars) -> Result<Vec<u8>, OutOfMemory>
    ensures { IfOk result (λ out. hessian_forms.text text.now out.items) }
{
    let mut out = Vec::new(alloc);
    write_text(alloc, &mut out, text.as_str())?;
    Ok(out)
}
