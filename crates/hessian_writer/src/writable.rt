//! Whether a graph can be written.

ghost use Rattle.std.specs.Prelude.{◌↔◌, ◌<◌, length, IsTrue};
ghost use Rattle.hessian_graph.specs.Shape.{shape_of, kind_of, values_of};
ghost use Rattle.hessian_graph.specs.Moving.{NamesThere, AllThere};
ghost use Rattle.hessian_writer.specs.Writable.{IsShortKind, IsWritable};

use hessian_graph::{Graph, Node, Parts};

/// How many nodes, items or fields are too many: an int doesn't count them.
const TOO_MANY: usize = 0x8000_0000;

/// Whether a graph can be written: its nodes, the items of each list and the fields of each object are fewer than 2,147,483,648.
pub fn is_writable(graph: &Graph) -> bool
    ensures { IsTrue result ↔ IsWritable (shape_of graph.now) }
{
    are_writable(graph.parts())
}

/// The same of the parts of a graph.
fn are_writable(parts: &Parts) -> bool
    requires { AllThere parts.now.types parts.now.classes parts.now.nodes }
    ensures { IsTrue result ↔ IsWritable (shape_of parts.now) }
{
    let nodes = parts.nodes.as_slice();
    if nodes.len() >= TOO_MANY {
        return false;
    }
    for node in nodes {
        if !is_short(parts, node) {
            return false;
        }
    }
    true
}

/// Whether an int counts the items of a list, or the fields of an object.
fn is_short(parts: &Parts, node: &Node) -> bool
    requires { NamesThere parts.now.types parts.now.classes node.now }
    ensures { IsTrue result ↔ IsShortKind (kind_of parts.now.types parts.now.classes node.now) (values_of node.now) }
{
    match node {
        Node::List { items, .. } => items.as_slice().len() < TOO_MANY,
        Node::Map { .. } => true,
        Node::Object { class, .. } => {
            let class = &parts.classes.as_slice()[*class as usize];
            class.fields.as_slice().len() < TOO_MANY
        }
    }
}
