//! Laws of bodies, as functions whose clauses are the laws. They do nothing when they are called.

ghost use Rattle.std.specs.Prelude.{◌≡◌, ◌<◌, ◌≤◌, ℕ, List, length};
ghost use Rattle.hessian_graph.specs.Canon.{IsCanon};
ghost use Rattle.hessian_graph.specs.Forms.{Written};
ghost use Rattle.hessian_graph.specs.Shape.{Shape, shape_of};
ghost use Rattle.hessian_graph.specs.Work.{IsClosed};
ghost use Rattle.hessian_reader.specs.Leaves.{IsDenoted, node_limit, hessian as read_spellings};
ghost use Rattle.hessian_writer.specs.Leaves.{hessian, hessian_forms};
ghost use Rattle.dubbo_header.specs.declared.header.Header.{Header};
ghost use Rattle.dubbo_bodies.specs.declared.message.Reply.{Reply as AReply};
ghost use Rattle.dubbo_bodies.specs.declared.message.Request.{Request as ARequest};
ghost use Rattle.dubbo_bodies.specs.CanonBody.{IsCanonRequest, IsCanonReply, GoesWith, HasFewNodes, HasClosedGraph};
ghost use Rattle.dubbo_bodies.specs.Descriptor.{HasArgs};
ghost use Rattle.dubbo_bodies.specs.Fields.{HESSIAN};
ghost use Rattle.dubbo_bodies.specs.ReplyBody.{ReplyOf};
ghost use Rattle.dubbo_bodies.specs.RequestBody.{RequestOf};
ghost use Rattle.dubbo_bodies.specs.WrittenBody.{WrittenRequest, WrittenReply};

use crate::message::{Reply, Request};
use hessian_graph::Graph;

/// A request has at most one written body.
pub fn has_one_request_body()
    ensures { (request : ARequest) → (a b : List ℕ) → WrittenRequest hessian hessian_forms request a → WrittenRequest hessian hessian_forms request b → a ≡ b }
{}

/// A reply has at most one written body.
pub fn has_one_reply_body()
    ensures { (reply : AReply) → (a b : List ℕ) → WrittenReply hessian hessian_forms reply a → WrittenReply hessian hessian_forms reply b → a ≡ b }
{}

/// What is written of a graph is read as its canonical form, where that has no more nodes than a reader takes.
pub fn written_graph_is_read()
    ensures { (graph form : Shape) → (bytes : List ℕ) → Written hessian hessian_forms graph bytes → IsCanon graph form
        → length form.nodes ≤ node_limit → IsDenoted bytes form × (length form.roots ≡ length graph.roots) }
{}

/// A written request is read as it was, with the canonical form of its arguments.
///
/// The bound on nodes counts the map of the attachments too.
pub fn request_is_read_as_written(request: &Request, canonical: &Request)
    ensures { (bound : ℕ) → (header : Header) → (body : List ℕ) → header.serial ≡ HESSIAN
        → HasArgs request.now.desc (length request.now.args.roots)
        → WrittenRequest hessian hessian_forms request.now body → IsCanonRequest request.now canonical.now
        → length canonical.now.args.nodes < bound → RequestOf read_spellings bound header body canonical.now }
{
    look_at(&request.args);
    look_at(&canonical.args);
}

/// A written reply is read as it was, with the canonical form of its graph.
pub fn reply_is_read_as_written(reply: &Reply, canonical: &Reply)
    ensures { (bound : ℕ) → (header : Header) → (body : List ℕ) → header.serial ≡ HESSIAN
        → GoesWith reply.now header.status
        → WrittenReply hessian hessian_forms reply.now body → IsCanonReply reply.now canonical.now
        → HasFewNodes canonical.now bound → ReplyOf read_spellings bound header body canonical.now }
{
    look_at_reply(reply);
    look_at_reply(canonical);
}

/// Looks at the graph of a reply, if it has one.
fn look_at_reply(reply: &Reply)
    ensures { HasClosedGraph reply.now }
{
    match reply {
        Reply::Value(graph) => look_at(graph),
        Reply::Threw(graph) => look_at(graph),
        Reply::Status { .. } => {}
    }
}

/// Looks at the parts of a graph, which are sound.
fn look_at(graph: &Graph)
    ensures { IsClosed (shape_of graph.now) }
{
    let _parts = graph.parts();
}
