//! What a kind makes of the values behind it.

ghost use Rattle.std.specs.Prelude.{◌≡◌, ◌≢◌, ◌<◌, length, IfOk, IfErr, MatchBool};
ghost use Rattle.hessian_graph.specs.Canon.{IsCanon};
ghost use Rattle.hessian_graph.specs.Shape.{alternately, shape_of};
ghost use Rattle.dubbo_bodies.specs.Attachments.{NoAttachments};
ghost use Rattle.dubbo_bodies.specs.ReplyBody.{AreSome, HasRoots, Outcome, null_alone};
ghost use Rattle.dubbo_bodies.specs.ReplyKinds.{FirstBeside, HasTextPairs, IsTextNode, LacksBeside, LastAreNone, LastAreSome, number_of};
ghost use Rattle.dubbo_bodies.specs.Refusals.{LacksAttachments};

use super::kind::Kind;
use crate::message::Reply;
use crate::read_attachments::without_last;
use crate::reply_fault::ReplyFault;
use hessian_graph::{
    Classes, Graph, Items, Node, Nodes, OutOfMemory, Pair, Parts, Texts, Value, canon,
};
use std::alloc::Global;

/// The reply that a kind makes of a graph, or that its last root is no attachments.
pub(super) fn outcome(alloc: Global, kind: Kind, graph: Graph) -> Result<Reply, ReplyFault>
    requires roots { HasRoots (number_of kind) (length graph.roots) }
    requires canonical { IsCanon (shape_of graph) (shape_of graph) }
    ensures ok { IfOk result (Outcome (shape_of graph) (number_of kind)) }
    ensures why { IfErr result (λ fault. fault ≢ ReplyFault.OutOfMemory
        → (fault ≡ ReplyFault.BadAttachments) × LacksBeside (shape_of graph) (number_of kind)) }
{
    match kind {
        Kind::Threw => Ok(Reply::Threw(graph)),
        Kind::Value => Ok(Reply::Value(graph)),
        Kind::Null => Ok(Reply::Value(null_graph(alloc)?)),
        Kind::ThrewBeside => match first_alone(alloc, graph) {
            Ok(form) => Ok(Reply::Threw(form)),
            Err(fault) => Err(fault),
        },
        Kind::ValueBeside => match first_alone(alloc, graph) {
            Ok(form) => Ok(Reply::Value(form)),
            Err(fault) => Err(fault),
        },
        Kind::NullBeside => null_beside(alloc, &graph),
    }
}

/// The canonical graph of the first of two roots, where the other is attachments.
fn first_alone(alloc: Global, graph: Graph) -> Result<Graph, ReplyFault>
    requires { length graph.roots ≡ 2 }
    ensures ok { IfOk result (λ form. FirstBeside (shape_of graph) (shape_of form)) }
    ensures why { IfErr result (λ fault. fault ≢ ReplyFault.OutOfMemory
        → (fault ≡ ReplyFault.BadAttachments) × LacksAttachments (shape_of graph) 1) }
{
    if !ends_in_attachments(&graph) {
        return Err(ReplyFault::BadAttachments);
    }
    let first = without_last(graph);
    let form = canon(alloc, &first)?;
    Ok(form)
}

/// The value null, where the one root is attachments.
fn null_beside(alloc: Global, graph: &Graph) -> Result<Reply, ReplyFault>
    requires { length graph.now.roots ≡ 1 }
    ensures ok { IfOk result (Outcome (shape_of graph.now) (number_of Kind.NullBeside)) }
    ensures why { IfErr result (λ fault. fault ≢ ReplyFault.OutOfMemory
        → (fault ≡ ReplyFault.BadAttachments) × LacksAttachments (shape_of graph.now) 0) }
{
    if !ends_in_attachments(graph) {
        return Err(ReplyFault::BadAttachments);
    }
    let form = null_graph(alloc)?;
    Ok(Reply::Value(form))
}

/// The graph of the value null.
fn null_graph(alloc: Global) -> Result<Graph, OutOfMemory>
    ensures { IfOk result (λ graph. shape_of graph ≡ null_alone) }
{
    let mut roots = Vec::new(alloc);
    roots.push(Value::Null)?;
    Ok(Graph::from_sound(Parts {
        roots: Items::from(roots),
        nodes: Nodes::from(Vec::new(alloc)),
        types: Texts::from(Vec::new(alloc)),
        classes: Classes::from(Vec::new(alloc)),
    }))
}

/// Whether the last root is attachments: null, or a map whose keys are texts.
fn ends_in_attachments(graph: &Graph) -> bool
    requires { 0 < length graph.now.roots }
    ensures { MatchBool result (LastAreSome (shape_of graph.now)) (LastAreNone (shape_of graph.now)) }
{
    match graph.parts().roots.as_slice() {
        [.., last] => are_attachments(graph, last),
        [] => unreachable!(),
    }
}

/// Whether a value is attachments.
fn are_attachments(graph: &Graph, value: &Value) -> bool
    ensures { MatchBool result (AreSome (shape_of graph.now) value.now) (NoAttachments (shape_of graph.now) value.now) }
{
    match value {
        Value::Null => true,
        Value::Node(number) => match graph.parts().nodes.as_slice().get(*number as usize) {
            Some(node) => is_text_map(node),
            None => false,
        },
        _ => false,
    }
}

/// Whether a node is a map whose keys are texts.
fn is_text_map(node: &Node) -> bool
    ensures { MatchBool result (IsTextNode node.now) (IsTextNode node.now → ⊥) }
{
    match node {
        Node::Map { pairs, .. } => have_text_keys(pairs.as_slice()),
        Node::List { .. } => false,
        Node::Object { .. } => false,
    }
}

/// Whether each key is a text.
fn have_text_keys(pairs: &[Pair]) -> bool
    ensures { MatchBool result (HasTextPairs (alternately pairs.now)) (HasTextPairs (alternately pairs.now) → ⊥) }
{
    for pair in pairs {
        let Value::Text(_) = &pair.key else {
            return false;
        };
    }
    true
}
