//! The values of a node up to one that has yet to begin.

ghost use Rattle.std.specs.Prelude.{ℕ, ◌<◌, ◌≤◌, List, [], length, get_or, IfOk, IsTrue};
ghost use Rattle.hessian_graph.specs.Shape.{kind_of, values_of};
ghost use Rattle.hessian_graph.specs.Moving.{NamesThere};
ghost use Rattle.graph_notation.specs.declared.element.Element.{Element};
ghost use Rattle.graph_notation.specs.Preparing.{HaveTexts};
ghost use Rattle.graph_notation.specs.PrintedLeaves.{PrintsLeaves, IsLeaf};
ghost use Rattle.graph_notation.specs.Pressing.{Prints, comma, before};

use crate::class_texts::ClassTexts;
use crate::entries::{value_at, write_before, write_comma, write_leaf, write_prepared};
use hessian_graph::{Node, Octets, Parts, Value};
use std::alloc::AllocError;

/// Whether a value is no node that has yet to begin.
#[inline(always)]
fn is_leaf(value: &Value, begun: usize) -> bool
    ensures { IsTrue result → IsLeaf begun value.now }
{
    match value {
        Value::Node(number) => (*number as usize) < begun,
        _ => true,
    }
}

/// Appends the items of a list from a place on, up to one that has yet to begin, and answers its place.
fn write_items(
    out: &mut Vec<u8>,
    items: &[Value],
    start: usize,
    begun: usize,
) -> Result<usize, AllocError>
    ensures further { IfOk result (λ end. start ≤ end) }
    ensures written { IfOk result (λ end. PrintsLeaves comma items.now begun out.old.items start end out.new.items) }
{
    let mut at = start;
    while at < items.len() && is_leaf(&items[at], begun) {
        write_comma(out, at)?;
        write_leaf(out, &items[at])?;
        at += 1;
    }
    Ok(at)
}

/// The same of the values of an object's fields, with what was prepared to stand before them.
fn write_fields(
    out: &mut Vec<u8>,
    texts: &[Octets],
    values: &[Value],
    start: usize,
    begun: usize,
) -> Result<usize, AllocError>
    requires { length values.now ≤ length texts.now }
    ensures further { IfOk result (λ end. start ≤ end) }
    ensures written { (es : ℕ → List Element) → ((k : ℕ) → k < length values.now → Prints [] (es k) (get_or texts.now k []))
        → IfOk result (λ end. PrintsLeaves es values.now begun out.old.items start end out.new.items) }
{
    let mut at = start;
    while at < values.len() && is_leaf(&values[at], begun) {
        write_prepared(out, &texts[at])?;
        write_leaf(out, &values[at])?;
        at += 1;
    }
    Ok(at)
}

/// The same of the keys and values of a map, or of any other node.
fn write_entries(
    out: &mut Vec<u8>,
    parts: &Parts,
    texts: &[ClassTexts],
    node: &Node,
    start: usize,
    begun: usize,
) -> Result<usize, AllocError>
    requires there { NamesThere parts.now.types parts.now.classes node.now }
    requires texts { HaveTexts parts.now.classes texts.now }
    ensures further { IfOk result (λ end. start ≤ end) }
    ensures written { IfOk result (λ end. PrintsLeaves (before (kind_of parts.now.types parts.now.classes node.now)) (values_of node.now) begun
        out.old.items start end out.new.items) }
{
    let mut at = start;
    while let Some(value) = value_at(node, at) {
        if !is_leaf(value, begun) {
            return Ok(at);
        }
        write_before(out, parts, texts, node, at)?;
        write_leaf(out, value)?;
        at += 1;
    }
    Ok(at)
}

/// Appends the values of a node from a place on, up to one that has yet to begin, and answers its place.
pub fn write_leaves(
    out: &mut Vec<u8>,
    parts: &Parts,
    texts: &[ClassTexts],
    node: &Node,
    start: usize,
    begun: usize,
) -> Result<usize, AllocError>
    requires there { NamesThere parts.now.types parts.now.classes node.now }
    requires texts { HaveTexts parts.now.classes texts.now }
    ensures further { IfOk result (λ end. start ≤ end) }
    ensures written { IfOk result (λ end. PrintsLeaves (before (kind_of parts.now.types parts.now.classes node.now)) (values_of node.now) begun
        out.old.items start end out.new.items) }
{
    match node {
        Node::List { items, .. } => write_items(out, items.as_slice(), start, begun),
        Node::Map { .. } => write_entries(out, parts, texts, node, start, begun),
        Node::Object { class, values } => write_fields(
            out,
            texts[*class as usize].fields.as_slice(),
            values.as_slice(),
            start,
            begun,
        ),
    }
}
