//! What a graph of the program holds: each value is such as its type can hold.
//!
//! These functions go through a graph and do nothing, so that their clauses can say it.

ghost use Rattle.std.specs.Prelude.{ℕ, ◌<◌, length, get_or, All, IsUtf8};
ghost use Rattle.hessian_graph.specs.Shape.{alternately, values_of, no_class, no_vertex, shape_of};
ghost use Rattle.hessian_graph.specs.Work.{IsClosed};
ghost use Rattle.hessian_writer.specs.Carried.{IsCarriedValue, IsCarriedClass, IsCarried};

use crate::names::are_bytes;
use hessian_graph::{Chars, Class, Graph, Node, Pair, Parts, Value};

/// A value is such as its type can hold.
fn value_is_carried(value: &Value)
    ensures { IsCarriedValue value.now }
{
    match *value {
        Value::Null => {}
        Value::Bool(_) => {}
        Value::Int(number) => {
            let _number = number;
        }
        Value::Long(number) => {
            let _number = number;
        }
        Value::Date(millis) => {
            let _millis = millis;
        }
        Value::Text(ref text) => text_is_carried(text),
        Value::Bytes(ref contents) => are_bytes(contents.as_slice()),
        Value::Node(_) => {}
    }
}

/// A text is in UTF-8.
fn text_is_carried(text: &Chars)
    ensures { IsUtf8 text.now }
{
    let _text = text.as_str();
}

/// So are values.
fn values_are_carried(values: &[Value])
    ensures { All IsCarriedValue values.now }
{
    for value in values {
        value_is_carried(value);
    }
}

/// So are the keys and values of pairs.
fn pairs_are_carried(pairs: &[Pair])
    ensures { All IsCarriedValue (alternately pairs.now) }
{
    for pair in pairs {
        value_is_carried(&pair.key);
        value_is_carried(&pair.value);
    }
}

/// So are texts.
fn texts_are_carried(texts: &[Chars])
    ensures { All IsUtf8 texts.now }
{
    for text in texts {
        text_is_carried(text);
    }
}

/// So are classes.
fn classes_are_carried(classes: &[Class])
    ensures { (n : ℕ) → n < length classes.now → IsCarriedClass (get_or classes.now n no_class) }
{
    for class in classes {
        text_is_carried(&class.name);
        texts_are_carried(class.fields.as_slice());
    }
}

/// So are the values of a node.
fn node_is_carried(node: &Node)
    ensures { All IsCarriedValue (values_of node.now) }
{
    match node {
        Node::List { items, .. } => values_are_carried(items.as_slice()),
        Node::Map { pairs, .. } => pairs_are_carried(pairs.as_slice()),
        Node::Object { values, .. } => values_are_carried(values.as_slice()),
    }
}

/// So are the values of nodes.
fn nodes_are_carried(nodes: &[Node])
    ensures { (n : ℕ) → n < length nodes.now → All IsCarriedValue (values_of (get_or nodes.now n no_vertex)) }
{
    for node in nodes {
        node_is_carried(node);
    }
}

/// The values, the types and the classes of parts are such as their types can hold.
fn parts_are_carried(parts: &Parts)
    ensures roots { All IsCarriedValue parts.now.roots }
    ensures nodes { (n : ℕ) → n < length parts.now.nodes → All IsCarriedValue (values_of (get_or parts.now.nodes n no_vertex)) }
    ensures types { All IsUtf8 parts.now.types }
    ensures classes { (n : ℕ) → n < length parts.now.classes → IsCarriedClass (get_or parts.now.classes n no_class) }
{
    let roots = parts.roots.as_slice();
    let nodes = parts.nodes.as_slice();
    let types = parts.types.as_slice();
    let classes = parts.classes.as_slice();
    values_are_carried(roots);
    nodes_are_carried(nodes);
    texts_are_carried(types);
    classes_are_carried(classes);
}

/// A graph's values name its nodes, and are such as their types can hold.
pub(crate) fn graph_is_carried(graph: &Graph)
    ensures closed { IsClosed (shape_of graph.now) }
    ensures carried { IsCarried (shape_of graph.now) }
{
    parts_are_carried(graph.parts());
}
