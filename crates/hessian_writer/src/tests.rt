//! What no clause says: bytes as they lie on a wire, and graphs that are deep or have many classes.

use crate::{is_writable, write_graph};
use hessian_graph::{
    Chars, Class, Classes, Graph, Items, Node, Nodes, Pair, Pairs, Parts, Texts, Value,
};
use std::alloc::{AllocError, Global};

/// A list without a type.
fn list(items: Vec<Value>) -> Node {
    Node::List {
        type_name: None,
        items: Items::from(items),
    }
}

/// A list of the type of this number.
fn typed_list(number: u32, items: Vec<Value>) -> Node {
    Node::List {
        type_name: Some(number),
        items: Items::from(items),
    }
}

/// An object of the class of this number.
fn object(class: u32, values: Vec<Value>) -> Node {
    Node::Object {
        class,
        values: Items::from(values),
    }
}

/// These texts.
fn texts(alloc: Global, words: &[&str]) -> Result<Texts, AllocError> {
    let mut all = Vec::new(alloc);
    for word in words {
        all.push(Chars::from(String::from_str(alloc, word)?))?;
    }
    Ok(Texts::from(all))
}

/// A class of this name with these fields.
fn class(alloc: Global, name: &str, fields: &[&str]) -> Result<Class, AllocError> {
    Ok(Class {
        name: Chars::from(String::from_str(alloc, name)?),
        fields: texts(alloc, fields)?,
    })
}

/// The bytes of a graph of these parts, whose only root is node 0; none where they are no graph.
fn bytes_of(
    alloc: Global,
    nodes: Vec<Node>,
    types: Texts,
    classes: Vec<Class>,
) -> Result<Vec<u8>, AllocError> {
    let parts = Parts {
        roots: Items::from(vec![in alloc; Value::Node(0)]?),
        nodes: Nodes::from(nodes),
        types,
        classes: Classes::from(classes),
    };
    if parts.nodes.as_slice().len() > 2_000_000 {
        return Ok(Vec::new(alloc));
    }
    match Graph::from_parts(parts) {
        Ok(graph) => {
            if is_writable(&graph) {
                write_graph(alloc, &graph)
            } else {
                Ok(Vec::new(alloc))
            }
        }
        Err(_) => Ok(Vec::new(alloc)),
    }
}

/// The bytes of untyped lists, the first of which is the root.
fn bytes_of_lists(alloc: Global, nodes: Vec<Node>) -> Result<Vec<u8>, AllocError> {
    bytes_of(alloc, nodes, texts(alloc, &[])?, Vec::new(alloc))
}

#[test]
fn lists_are_written_as_drawn(rt: HostRuntime) -> Result<(), AllocError> {
    let alloc = rt.alloc();
    // [#0]
    let nodes = vec![in alloc; list(vec![in alloc; Value::Node(0)]?)]?;
    assert_eq!(rt;
        bytes_of_lists(alloc, nodes)?,
        vec![in alloc; 0x79, 0x51, 0x90]?
    );

    // [[],#1], whose inner list is node 2 of three
    let outer = list(vec![in alloc; Value::Node(2), Value::Node(2)]?);
    let nodes = vec![in alloc; outer, list(Vec::new(alloc)), list(Vec::new(alloc))]?;
    assert_eq!(rt;
        bytes_of_lists(alloc, nodes)?,
        vec![in alloc; 0x7a, 0x78, 0x51, 0x91]?
    );

    // [1,-5L,0,0,0,0,0,0]
    let long = list(vec![in alloc;
        Value::Int(1),
        Value::Long(-500_000),
        Value::Null,
        Value::Bool(true),
        Value::Date(60_000),
        Value::Int(0),
        Value::Int(0),
        Value::Int(0),
    ]?);
    let nodes = vec![in alloc; long]?;
    assert_eq!(rt;
        bytes_of_lists(alloc, nodes)?,
        vec![in alloc;
            0x58, 0x98, 0x91, 0x59, 0xff, 0xf8, 0x5e, 0xe0, 0x4e, 0x54, 0x4b, 0, 0, 0, 1, 0x90,
            0x90, 0x90,
        ]?
    );
    Ok(())
}

#[test]
fn a_type_is_written_once(rt: HostRuntime) -> Result<(), AllocError> {
    let alloc = rt.alloc();
    // [!"[int"[],!"[int"[]], by two equal entries of the table
    let outer = list(vec![in alloc; Value::Node(1), Value::Node(2)]?);
    let nodes = vec![in alloc;
        outer,
        typed_list(2, Vec::new(alloc)),
        typed_list(1, Vec::new(alloc)),
    ]?;
    let types = texts(alloc, &["unused", "[int", "[int"])?;
    let bytes = bytes_of(alloc, nodes, types, Vec::new(alloc))?;
    assert_eq!(rt;
        bytes,
        vec![in alloc; 0x7a, 0x70, 0x04, 0x5b, 0x69, 0x6e, 0x74, 0x70, 0x90]?
    );

    // !"a"{"k":1}
    let pair = Pair {
        key: Value::Text(Chars::from(String::from_str(alloc, "k")?)),
        value: Value::Int(1),
    };
    let map = Node::Map {
        type_name: Some(0),
        pairs: Pairs::from(vec![in alloc; pair]?),
    };
    let bytes = bytes_of(
        alloc,
        vec![in alloc; map]?,
        texts(alloc, &["a"])?,
        Vec::new(alloc),
    )?;
    assert_eq!(rt;
        bytes,
        vec![in alloc; 0x4d, 0x01, 0x61, 0x01, 0x6b, 0x91, 0x5a]?
    );
    Ok(())
}

#[test]
fn a_class_is_defined_before_its_first_object(rt: HostRuntime) -> Result<(), AllocError> {
    let alloc = rt.alloc();
    let knot = object(0, vec![in alloc; Value::Node(0), Value::Int(5)]?);
    let classes = vec![in alloc; class(alloc, "demo.Knot", &["self", "value"])?]?;
    let bytes = bytes_of(alloc, vec![in alloc; knot]?, texts(alloc, &[])?, classes)?;
    assert_eq!(rt;
        bytes,
        vec![in alloc;
            0x43, 0x09, 0x64, 0x65, 0x6d, 0x6f, 0x2e, 0x4b, 0x6e, 0x6f, 0x74, 0x92, 0x04, 0x73,
            0x65, 0x6c, 0x66, 0x05, 0x76, 0x61, 0x6c, 0x75, 0x65, 0x60, 0x51, 0x90, 0x95,
        ]?
    );

    // Two entries that are equal are one class; one with another field isn't.
    let outer = list(vec![in alloc; Value::Node(1), Value::Node(2), Value::Node(3)]?);
    let a = object(0, Vec::new(alloc));
    let b = object(1, vec![in alloc; Value::Null]?);
    let c = object(2, Vec::new(alloc));
    let classes = vec![in alloc;
        class(alloc, "A", &[])?,
        class(alloc, "A", &["f"])?,
        class(alloc, "A", &[])?,
    ]?;
    let bytes = bytes_of(
        alloc,
        vec![in alloc; outer, a, b, c]?,
        texts(alloc, &[])?,
        classes,
    )?;
    assert_eq!(rt;
        bytes,
        vec![in alloc;
            0x7b, 0x43, 0x01, 0x41, 0x90, 0x60, 0x43, 0x01, 0x41, 0x91, 0x01, 0x66, 0x61, 0x4e,
            0x60,
        ]?
    );
    Ok(())
}

#[test]
fn a_deep_list_is_written(rt: HostRuntime) -> Result<(), AllocError> {
    let alloc = rt.alloc();
    let mut nodes = Vec::new(alloc);
    for number in 1..900_000 {
        nodes.push(list(vec![in alloc; Value::Node(number)]?))?;
    }
    nodes.push(list(Vec::new(alloc)))?;
    let bytes = bytes_of_lists(alloc, nodes)?;
    assert_eq!(rt; bytes.len(), 900_000);
    assert_eq!(rt; bytes.last().copied(), Some(0x78));
    Ok(())
}

#[test]
fn many_classes_are_written(rt: HostRuntime) -> Result<(), AllocError> {
    let alloc = rt.alloc();
    let mut classes = Vec::new(alloc);
    for number in 0..10_000 {
        classes.push(class(
            alloc,
            format!(in alloc; "demo.Class{}", number)?.as_str(),
            &["value"],
        )?)?;
    }
    let mut items = Vec::new(alloc);
    for number in 1..50_001 {
        items.push(Value::Node(number))?;
    }
    let mut nodes = Vec::new(alloc);
    nodes.push(list(items))?;
    for number in 1..50_001 {
        nodes.push(object(number % 10_000, vec![in alloc; Value::Int(7)]?))?;
    }
    let bytes = bytes_of(alloc, nodes, texts(alloc, &[])?, classes)?;
    assert!(rt; bytes.len() > 400_000);
    Ok(())
}
