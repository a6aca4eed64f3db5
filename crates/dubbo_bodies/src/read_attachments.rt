//! The attachments at the end of the values of a body.

ghost use Rattle.std.specs.Prelude.{◌≡◌, ℕ, suc, IfOk, OnOk, length};
ghost use Rattle.hessian_graph.specs.Shape.{alternately, shape_of};
ghost use Rattle.dubbo_bodies.specs.AttachmentsRead.{FindsAttachments, FindsBehind, FindsInNode, FindsPairs, Keeps};
ghost use Rattle.dubbo_bodies.specs.RootsRead.{DropsLast};

use crate::attachment::{Attachment, Attachments};
use hessian_graph::{Chars, Graph, Items, Node, OutOfMemory, Pair, Parts, Value};
use std::alloc::Global;

/// The attachments that the last root of a graph is, if it is some.
pub(crate) fn last_attachments(
    alloc: Global,
    graph: &Graph,
) -> Result<Option<Attachments>, OutOfMemory>
    ensures { (count : ℕ) → length graph.now.roots ≡ suc count
        → IfOk result (FindsBehind (shape_of graph.now) count) }
{
    match graph.parts().roots.as_slice() {
        [.., last] => attachments_of(alloc, graph, last),
        [] => Ok(None),
    }
}

/// The attachments that a value is, if it is some: null is none at all, and a map whose keys are texts has a text for each.
///
/// Pairs whose value isn't a text are dropped.
pub(crate) fn attachments_of(
    alloc: Global,
    graph: &Graph,
    value: &Value,
) -> Result<Option<Attachments>, OutOfMemory>
    ensures { IfOk result (FindsAttachments (shape_of graph.now) value.now) }
{
    match value {
        Value::Null => Ok(Some(Attachments::from(Vec::new(alloc)))),
        Value::Node(number) => match graph.parts().nodes.as_slice().get(*number as usize) {
            Some(node) => node_texts(alloc, node),
            None => Ok(None),
        },
        _ => Ok(None),
    }
}

/// The pairs of a node whose value is a text, if the node is a map and all keys are texts.
fn node_texts(alloc: Global, node: &Node) -> Result<Option<Attachments>, OutOfMemory>
    ensures { IfOk result (FindsInNode node.now) }
{
    match node {
        Node::Map { pairs, .. } => text_pairs(alloc, pairs.as_slice()),
        Node::List { .. } => Ok(None),
        Node::Object { .. } => Ok(None),
    }
}

/// The pairs whose value is a text, if all keys are texts.
fn text_pairs(alloc: Global, pairs: &[Pair]) -> Result<Option<Attachments>, OutOfMemory>
    ensures { IfOk result (FindsPairs (alternately pairs.now)) }
{
    let mut found = Vec::new(alloc);
    for pair in pairs {
        let Value::Text(name) = &pair.key else {
            return Ok(None);
        };
        keep_text(alloc, &mut found, name, &pair.value)?;
    }
    Ok(Some(Attachments::from(found)))
}

/// Appends the attachment of a pair, if its value is a text.
fn keep_text(
    alloc: Global,
    found: &mut Vec<Attachment>,
    name: &Chars,
    value: &Value,
) -> Result<(), OutOfMemory>
    ensures { OnOk result (Keeps found.old.items name.now value.now found.new.items) }
{
    let Value::Text(text) = value else {
        return Ok(());
    };
    found.push(Attachment {
        name: copy_text(alloc, name)?,
        value: copy_text(alloc, text)?,
    })?;
    Ok(())
}

/// A copy of a text.
fn copy_text(alloc: Global, text: &Chars) -> Result<Chars, OutOfMemory>
    ensures { IfOk result (λ copy. copy ≡ text.now) }
{
    Ok(Chars::from(String::from_str(alloc, text.as_str())?))
}

/// The graph without its last root.
pub(crate) fn without_last(graph: Graph) -> Graph
    ensures { DropsLast graph result }
{
    let Parts {
        roots,
        nodes,
        types,
        classes,
    } = graph.into_parts();
    let mut roots = roots.into_inner();
    roots.pop();
    Graph::from_sound(Parts {
        roots: Items::from(roots),
        nodes,
        types,
        classes,
    })
}
