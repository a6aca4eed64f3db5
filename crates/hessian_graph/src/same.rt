//! The comparison of two graphs' parts.

ghost use Rattle.std.specs.Prelude.{◌≡◌, ◌↔◌, IsTrue};

use crate::node::{Class, Node};
use crate::parts::Parts;
use crate::text::Chars;
use crate::value::{Pair, Value};

/// Whether two texts are equal.
fn same_text(left: &Chars, right: &Chars) -> bool
    ensures { IsTrue result ↔ (left.now ≡ right.now) }
{
    left.as_str() == right.as_str()
}

/// Whether two lists of texts are equal.
fn same_texts(left: &[Chars], right: &[Chars]) -> bool
    ensures { IsTrue result ↔ (left.now ≡ right.now) }
{
    if left.len() != right.len() {
        return false;
    }
    for place in 0..left.len() {
        if !same_text(&left[place], &right[place]) {
            return false;
        }
    }
    true
}

/// Whether two classes have one name and the same fields.
fn same_class(left: &Class, right: &Class) -> bool
    ensures { IsTrue result ↔ (left.now ≡ right.now) }
{
    same_text(&left.name, &right.name)
        && same_texts(left.fields.as_slice(), right.fields.as_slice())
}

/// Whether two values are equal.
fn same_value(left: &Value, right: &Value) -> bool
    ensures { IsTrue result ↔ (left.now ≡ right.now) }
{
    match left {
        Value::Null => match right {
            Value::Null => true,
            _ => false,
        },
        Value::Bool(one) => match right {
            Value::Bool(other) => *one == *other,
            _ => false,
        },
        Value::Int(one) => match right {
            Value::Int(other) => *one == *other,
            _ => false,
        },
        Value::Long(one) => match right {
            Value::Long(other) => *one == *other,
            _ => false,
        },
        Value::Date(one) => match right {
            Value::Date(other) => *one == *other,
            _ => false,
        },
        Value::Text(one) => match right {
            Value::Text(other) => same_text(one, other),
            _ => false,
        },
        Value::Bytes(one) => match right {
            Value::Bytes(other) => one.as_slice() == other.as_slice(),
            _ => false,
        },
        Value::Node(one) => match right {
            Value::Node(other) => *one == *other,
            _ => false,
        },
    }
}

/// Whether two lists of values are equal.
fn same_values(left: &[Value], right: &[Value]) -> bool
    ensures { IsTrue result ↔ (left.now ≡ right.now) }
{
    if left.len() != right.len() {
        return false;
    }
    for place in 0..left.len() {
        if !same_value(&left[place], &right[place]) {
            return false;
        }
    }
    true
}

/// Whether two pairs are equal.
fn same_pair(left: &Pair, right: &Pair) -> bool
    ensures { IsTrue result ↔ (left.now ≡ right.now) }
{
    same_value(&left.key, &right.key) && same_value(&left.value, &right.value)
}

/// Whether two lists of pairs are equal.
fn same_pairs(left: &[Pair], right: &[Pair]) -> bool
    ensures { IsTrue result ↔ (left.now ≡ right.now) }
{
    if left.len() != right.len() {
        return false;
    }
    for place in 0..left.len() {
        if !same_pair(&left[place], &right[place]) {
            return false;
        }
    }
    true
}

/// Whether two numbers of types are equal, or both aren't given.
fn same_number(one: Option<u32>, other: Option<u32>) -> bool
    ensures { IsTrue result ↔ (one ≡ other) }
{
    match one {
        None => match other {
            None => true,
            Some(_) => false,
        },
        Some(one) => match other {
            None => false,
            Some(other) => one == other,
        },
    }
}

/// Whether two nodes are equal, by the numbers of their types or classes.
fn same_node(left: &Node, right: &Node) -> bool
    ensures { IsTrue result ↔ (left.now ≡ right.now) }
{
    match left {
        Node::List { type_name, items } => match right {
            Node::List {
                type_name: other_type,
                items: others,
            } => {
                same_number(*type_name, *other_type)
                    && same_values(items.as_slice(), others.as_slice())
            }
            _ => false,
        },
        Node::Map { type_name, pairs } => match right {
            Node::Map {
                type_name: other_type,
                pairs: others,
            } => {
                same_number(*type_name, *other_type)
                    && same_pairs(pairs.as_slice(), others.as_slice())
            }
            _ => false,
        },
        Node::Object { class, values } => match right {
            Node::Object {
                class: other_class,
                values: others,
            } => *class == *other_class && same_values(values.as_slice(), others.as_slice()),
            _ => false,
        },
    }
}

/// Whether two lists of nodes are equal.
fn same_nodes(left: &[Node], right: &[Node]) -> bool
    ensures { IsTrue result ↔ (left.now ≡ right.now) }
{
    if left.len() != right.len() {
        return false;
    }
    for place in 0..left.len() {
        if !same_node(&left[place], &right[place]) {
            return false;
        }
    }
    true
}

/// Whether two lists of classes are equal.
fn same_classes(left: &[Class], right: &[Class]) -> bool
    ensures { IsTrue result ↔ (left.now ≡ right.now) }
{
    if left.len() != right.len() {
        return false;
    }
    for place in 0..left.len() {
        if !same_class(&left[place], &right[place]) {
            return false;
        }
    }
    true
}

/// Whether two tables of types and two of classes are equal.
fn same_tables(left: &Parts, right: &Parts) -> bool
    ensures { IsTrue result ↔ ((left.now.types ≡ right.now.types) × (left.now.classes ≡ right.now.classes)) }
{
    same_texts(left.types.as_slice(), right.types.as_slice())
        && same_classes(left.classes.as_slice(), right.classes.as_slice())
}

/// Whether the parts of two graphs are equal: tables, roots, and nodes number by number.
pub fn same_parts(left: &Parts, right: &Parts) -> bool
    ensures { IsTrue result ↔ (left.now ≡ right.now) }
{
    same_tables(left, right)
        && same_values(left.roots.as_slice(), right.roots.as_slice())
        && same_nodes(left.nodes.as_slice(), right.nodes.as_slice())
}
