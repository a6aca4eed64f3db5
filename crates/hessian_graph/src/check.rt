//! The search for the first fault of parts.

ghost use Rattle.std.specs.Prelude.{◌≡◌, ℕ, ◌<◌, ◌^◌, length};
ghost use Rattle.std.specs.List.{flat_map};
ghost use Rattle.hessian_graph.specs.Faults.{First, faults, node_faults, value_faults, unless_below, class_faults};
ghost use Rattle.hessian_graph.specs.Shape.{alternately, node_of};
ghost use Rattle.hessian_graph.specs.declared.parts.PartsFault.TheVariants.{BadNode, BadTypeName};

use crate::node::{Class, Node};
use crate::parts::{Parts, PartsFault};
use crate::value::{Pair, Value};

/// The number of the node that a value names.
pub fn node_in(value: &Value) -> Option<u32>
    ensures { result ≡ node_of value.now }
{
    match value {
        Value::Node(number) => Some(*number),
        _ => None,
    }
}

/// Looks at a value, among so many nodes.
fn check_value(value: &Value, count: usize) -> Result<(), PartsFault>
    ensures { First result (value_faults count value.now) }
{
    match node_in(value) {
        Some(number) if number as usize >= count => Err(PartsFault::BadNode { number }),
        _ => Ok(()),
    }
}

/// Looks at values in order.
fn check_values(values: &[Value], count: usize) -> Result<(), PartsFault>
    ensures { First result (flat_map (value_faults count) values.now) }
{
    for value in values {
        check_value(value, count)?;
    }
    Ok(())
}

/// Looks at pairs in order, at each key before its value.
fn check_pairs(pairs: &[Pair], count: usize) -> Result<(), PartsFault>
    ensures { First result (flat_map (value_faults count) (alternately pairs.now)) }
{
    for pair in pairs {
        check_value(&pair.key, count)?;
        check_value(&pair.value, count)?;
    }
    Ok(())
}

/// Looks at the number of a type, among so many types.
fn check_type(number: Option<u32>, count: usize) -> Result<(), PartsFault>
    ensures { First result (unless_below BadTypeName count number) }
{
    match number {
        Some(number) if number as usize >= count => Err(PartsFault::BadTypeName { number }),
        _ => Ok(()),
    }
}

/// Looks at the class of an object of so many values.
fn check_class(classes: &[Class], node: u32, class: u32, count: usize) -> Result<(), PartsFault>
    ensures { First result (class_faults classes.now node class count) }
{
    if class as usize >= classes.len() {
        return Err(PartsFault::BadClass { number: class });
    }
    if count != classes[class as usize].fields.as_slice().len() {
        return Err(PartsFault::BadFieldCount { node });
    }
    Ok(())
}

/// Looks at the node of this number.
fn check_node(parts: &Parts, number: u32, node: &Node) -> Result<(), PartsFault>
    ensures { First result (node_faults parts.now number node.now) }
{
    let count = parts.nodes.as_slice().len();
    match node {
        Node::List { type_name, items } => {
            check_type(*type_name, parts.types.as_slice().len())?;
            check_values(items.as_slice(), count)
        }
        Node::Map { type_name, pairs } => {
            check_type(*type_name, parts.types.as_slice().len())?;
            check_pairs(pairs.as_slice(), count)
        }
        Node::Object { class, values } => {
            let values = values.as_slice();
            check_class(parts.classes.as_slice(), number, *class, values.len())?;
            check_values(values, count)
        }
    }
}

/// Looks for the first fault of the parts.
pub fn check_parts(parts: &Parts) -> Result<(), PartsFault>
    requires { length parts.now.nodes < 2 ^ 32 }
    ensures { First result (faults parts.now) }
{
    let nodes = parts.nodes.as_slice();
    check_values(parts.roots.as_slice(), nodes.len())?;
    let mut number = 0;
    for node in nodes {
        check_node(parts, number, node)?;
        number += 1;
    }
    Ok(())
}
