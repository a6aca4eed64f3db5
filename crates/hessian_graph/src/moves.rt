//! Values and nodes under the numbers that a visit and the new tables gave.

ghost use Rattle.std.specs.Prelude.{◌≡◌, IfOk, map, All, length, IsSome, None, get_or};
ghost use Rattle.hessian_graph.specs.Shape.{shape_of, alternately, values_of};
ghost use Rattle.hessian_graph.specs.Canon.{renumbered};
ghost use Rattle.hessian_graph.specs.Work.{Fine, NamesBelow};
ghost use Rattle.hessian_graph.specs.Moving.{PairsBelow, NamesFit, NamesThere, TypeKnown, NodeKnown, ClassFits, IsMoved};
ghost use Rattle.hessian_graph.specs.Tables.{NumberBelow};
ghost use Rattle.hessian_graph.specs.declared.node.Node.TheVariants as nodes;

use crate::copy::{copy_bytes, copy_text};
use crate::names::Names;
use crate::node::Node;
use crate::parts::Parts;
use crate::value::{Items, Pair, Pairs, Value};
use crate::walk::Walk;
use std::alloc::{AllocError, Global};

/// A copy of a value, with the new number where it names a node.
fn move_value(alloc: Global, parts: &Parts, walk: &Walk, value: &Value) -> Result<Value, AllocError>
    requires fine { Fine (shape_of parts.now) walk.now }
    requires below { NamesBelow (length (shape_of parts.now).nodes) value.now }
    ensures { IfOk result (λ v. v ≡ renumbered walk.now.order.items value.now) }
{
    Ok(match value {
        Value::Null => Value::Null,
        Value::Bool(truth) => Value::Bool(*truth),
        Value::Int(number) => Value::Int(*number),
        Value::Long(number) => Value::Long(*number),
        Value::Date(moment) => Value::Date(*moment),
        Value::Text(text) => Value::Text(copy_text(alloc, text)?),
        Value::Bytes(bytes) => Value::Bytes(copy_bytes(alloc, bytes)?),
        Value::Node(number) => Value::Node(walk.place(parts, *number).unwrap_or(0)),
    })
}

/// Copies of values, each under its new number.
pub fn move_values(
    alloc: Global,
    parts: &Parts,
    walk: &Walk,
    values: &[Value],
) -> Result<Vec<Value>, AllocError>
    requires fine { Fine (shape_of parts.now) walk.now }
    requires below { All (NamesBelow (length (shape_of parts.now).nodes)) values.now }
    ensures { IfOk result (λ vs. vs.items ≡ map (renumbered walk.now.order.items) values.now) }
{
    let mut moved = Vec::new(alloc);
    for value in values {
        let copy = move_value(alloc, parts, walk, value)?;
        moved.push(copy)?;
    }
    Ok(moved)
}

/// Copies of pairs, each key and value under its new number.
fn move_pairs(
    alloc: Global,
    parts: &Parts,
    walk: &Walk,
    pairs: &[Pair],
) -> Result<Vec<Pair>, AllocError>
    requires fine { Fine (shape_of parts.now) walk.now }
    requires below { PairsBelow (length (shape_of parts.now).nodes) pairs.now }
    ensures { IfOk result (λ ps. alternately ps.items ≡ map (renumbered walk.now.order.items) (alternately pairs.now)) }
{
    let mut moved = Vec::new(alloc);
    for pair in pairs {
        let key = move_value(alloc, parts, walk, &pair.key)?;
        let value = move_value(alloc, parts, walk, &pair.value)?;
        moved.push(Pair { key, value })?;
    }
    Ok(moved)
}

/// A copy of a list, with the new numbers of its type and of its items.
fn move_list(
    alloc: Global,
    parts: &Parts,
    walk: &Walk,
    names: &Names,
    type_name: Option<u32>,
    items: &[Value],
) -> Result<Node, AllocError>
    requires fine { Fine (shape_of parts.now) walk.now }
    requires below { All (NamesBelow (length (shape_of parts.now).nodes)) items.now }
    requires names { NamesFit parts.now names.now }
    requires there { NumberBelow (length parts.now.types) type_name }
    requires known { TypeKnown names.now.types.known.items type_name }
    ensures { IfOk result (IsMoved parts.now names.now walk.now.order.items (nodes.List type_name items.now)) }
{
    let moved = move_values(alloc, parts, walk, items)?;
    let items = Items::from(moved);
    let type_name = names.types.renamed(type_name);
    Ok(Node::List { type_name, items })
}

/// A copy of a map, with the new numbers of its type and of its keys and values.
fn move_map(
    alloc: Global,
    parts: &Parts,
    walk: &Walk,
    names: &Names,
    type_name: Option<u32>,
    pairs: &[Pair],
) -> Result<Node, AllocError>
    requires fine { Fine (shape_of parts.now) walk.now }
    requires below { All (NamesBelow (length (shape_of parts.now).nodes)) (alternately pairs.now) }
    requires names { NamesFit parts.now names.now }
    requires there { NumberBelow (length parts.now.types) type_name }
    requires known { TypeKnown names.now.types.known.items type_name }
    ensures { IfOk result (IsMoved parts.now names.now walk.now.order.items (nodes.Map type_name pairs.now)) }
{
    let moved = move_pairs(alloc, parts, walk, pairs)?;
    let pairs = Pairs::from(moved);
    let type_name = names.types.renamed(type_name);
    Ok(Node::Map { type_name, pairs })
}

/// A copy of an object, with the new numbers of its class and of its values.
fn move_object(
    alloc: Global,
    parts: &Parts,
    walk: &Walk,
    names: &Names,
    class: u32,
    values: &[Value],
) -> Result<Node, AllocError>
    requires fine { Fine (shape_of parts.now) walk.now }
    requires below { All (NamesBelow (length (shape_of parts.now).nodes)) values.now }
    requires names { NamesFit parts.now names.now }
    requires there { ClassFits parts.now.classes class (length values.now) }
    requires known { IsSome (get_or names.now.classes.known.items class None) }
    ensures { IfOk result (IsMoved parts.now names.now walk.now.order.items (nodes.Object class values.now)) }
{
    let moved = move_values(alloc, parts, walk, values)?;
    let values = Items::from(moved);
    let class = names.classes.renamed(class);
    Ok(Node::Object { class, values })
}

/// A copy of a node, with the new numbers of its type or class and of its values.
pub fn move_node(
    alloc: Global,
    parts: &Parts,
    walk: &Walk,
    names: &Names,
    node: &Node,
) -> Result<Node, AllocError>
    requires fine { Fine (shape_of parts.now) walk.now }
    requires below { All (NamesBelow (length (shape_of parts.now).nodes)) (values_of node.now) }
    requires names { NamesFit parts.now names.now }
    requires there { NamesThere parts.now.types parts.now.classes node.now }
    requires known { NodeKnown names.now.types.known.items names.now.classes.known.items node.now }
    ensures { IfOk result (IsMoved parts.now names.now walk.now.order.items node.now) }
{
    match node {
        Node::List { type_name, items } => {
            move_list(alloc, parts, walk, names, *type_name, items.as_slice())
        }
        Node::Map { type_name, pairs } => {
            move_map(alloc, parts, walk, names, *type_name, pairs.as_slice())
        }
        Node::Object { class, values } => {
            move_object(alloc, parts, walk, names, *class, values.as_slice())
        }
    }
}
