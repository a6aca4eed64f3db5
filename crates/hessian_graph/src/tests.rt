//! What no clause says: each fault once, the tables of a form, and a deep graph.

use crate::{
    Chars, Class, Classes, Graph, Items, Node, Nodes, Pairs, Parts, PartsFault, Texts, Value,
    canon, same_shape,
};
use std::alloc::{AllocError, Global};

/// A list without a type.
fn list(items: Vec<Value>) -> Node {
    Node::List {
        type_name: None,
        items: Items::from(items),
    }
}

/// Parts without types and classes.
fn untyped(alloc: Global, roots: Vec<Value>, nodes: Vec<Node>) -> Parts {
    Parts {
        roots: Items::from(roots),
        nodes: Nodes::from(nodes),
        types: Texts::from(Vec::new(alloc)),
        classes: Classes::from(Vec::new(alloc)),
    }
}

/// The graph of parts with few nodes, or their first fault.
fn make(parts: Parts) -> Option<Result<Graph, PartsFault>> {
    if parts.nodes.as_slice().len() > 2_000_000 {
        return None;
    }
    Some(Graph::from_parts(parts))
}

/// The first fault of parts.
fn fault_of(parts: Parts) -> Option<PartsFault> {
    match make(parts) {
        Some(Err(fault)) => Some(fault),
        _ => None,
    }
}

/// For each node its type's number, 90 where it has none, the nodes that it names, and 99.
fn numbers(alloc: Global, graph: &Graph) -> Result<Vec<u32>, AllocError> {
    let mut all = Vec::new(alloc);
    for node in graph.parts().nodes.as_slice() {
        if let Node::List { type_name, items } = node {
            all.push(type_name.unwrap_or(90))?;
            for item in items.as_slice() {
                if let Value::Node(number) = item {
                    all.push(*number)?;
                }
            }
            all.push(99)?;
        }
    }
    Ok(all)
}

/// The numbers of the canonical form of parts.
fn form_of(alloc: Global, parts: Parts) -> Result<Vec<u32>, AllocError> {
    match make(parts) {
        Some(Ok(graph)) => numbers(alloc, &canon(alloc, &graph)?),
        _ => Ok(Vec::new(alloc)),
    }
}

#[test]
fn each_fault_is_named(rt: HostRuntime) -> Result<(), AllocError> {
    let alloc = rt.alloc();
    let roots = vec![in alloc; Value::Node(0)]?;
    let fault = fault_of(untyped(alloc, roots, Vec::new(alloc)));
    assert_eq!(rt; fault, Some(PartsFault::BadNode { number: 0 }));

    let node = Node::List {
        type_name: Some(3),
        items: Items::from(vec![in alloc; Value::Node(7)]?),
    };
    let fault = fault_of(untyped(alloc, Vec::new(alloc), vec![in alloc; node]?));
    assert_eq!(rt; fault, Some(PartsFault::BadTypeName { number: 3 }));

    let node = Node::Object {
        class: 2,
        values: Items::from(Vec::new(alloc)),
    };
    let fault = fault_of(untyped(
        alloc,
        Vec::new(alloc),
        vec![in alloc; list(Vec::new(alloc)), node]?,
    ));
    assert_eq!(rt; fault, Some(PartsFault::BadClass { number: 2 }));

    let node = Node::Object {
        class: 0,
        values: Items::from(vec![in alloc; Value::Null]?),
    };
    let mut parts = untyped(
        alloc,
        Vec::new(alloc),
        vec![in alloc; list(Vec::new(alloc)), node]?,
    );
    let name = Chars::from(String::from_str(alloc, "Empty")?);
    let class = Class {
        name,
        fields: Texts::from(Vec::new(alloc)),
    };
    parts.classes = Classes::from(vec![in alloc; class]?);
    assert_eq!(rt;
        fault_of(parts),
        Some(PartsFault::BadFieldCount { node: 1 })
    );
    Ok(())
}

#[test]
fn small_forms_are_as_drawn(rt: HostRuntime) -> Result<(), AllocError> {
    let alloc = rt.alloc();
    // [[],#1] keeps its numbers, and so does [[],[]].
    let shared = list(vec![in alloc; Value::Node(1), Value::Node(1)]?);
    let nodes = vec![in alloc; shared, list(Vec::new(alloc))]?;
    let form = form_of(
        alloc,
        untyped(alloc, vec![in alloc; Value::Node(0)]?, nodes),
    )?;
    assert_eq!(rt; form, vec![in alloc; 90, 1, 1, 99, 90, 99]?);

    let twice = list(vec![in alloc; Value::Node(1), Value::Node(2)]?);
    let nodes = vec![in alloc; twice, list(Vec::new(alloc)), list(Vec::new(alloc))]?;
    let form = form_of(
        alloc,
        untyped(alloc, vec![in alloc; Value::Node(0)]?, nodes),
    )?;
    assert_eq!(rt; form, vec![in alloc; 90, 1, 2, 99, 90, 99, 90, 99]?);

    // Behind the root 2, whose list names node 0 twice, node 1 isn't reached.
    let shared = list(vec![in alloc; Value::Node(0), Value::Node(0)]?);
    let alone = list(vec![in alloc; Value::Node(1)]?);
    let nodes = vec![in alloc; list(Vec::new(alloc)), alone, shared]?;
    let form = form_of(
        alloc,
        untyped(alloc, vec![in alloc; Value::Node(2)]?, nodes),
    )?;
    assert_eq!(rt; form, vec![in alloc; 90, 1, 1, 99, 90, 99]?);
    Ok(())
}

#[test]
fn types_stand_once_in_the_order_of_use(rt: HostRuntime) -> Result<(), AllocError> {
    let alloc = rt.alloc();
    let mut nodes = Vec::new(alloc);
    let mut roots = Vec::new(alloc);
    for (place, number) in [(0, 2), (1, 1), (2, 0)] {
        let items = Items::from(Vec::new(alloc));
        nodes.push(Node::List {
            type_name: Some(number),
            items,
        })?;
        roots.push(Value::Node(place))?;
    }
    let mut parts = untyped(alloc, roots, nodes);
    let mut types = Vec::new(alloc);
    for name in ["a", "b", "a"] {
        types.push(Chars::from(String::from_str(alloc, name)?))?;
    }
    parts.types = Texts::from(types);
    assert_eq!(rt;
        form_of(alloc, parts)?,
        vec![in alloc; 0, 99, 1, 99, 0, 99]?
    );
    Ok(())
}

#[test]
fn a_chain_of_a_million_nodes_needs_no_deep_stack(rt: HostRuntime) -> Result<(), AllocError> {
    let alloc = rt.alloc();
    let mut nodes = Vec::new(alloc);
    for next in 1..1_000_000 {
        nodes.push(list(vec![in alloc; Value::Node(next)]?))?;
    }
    nodes.push(list(Vec::new(alloc)))?;
    let form = form_of(
        alloc,
        untyped(alloc, vec![in alloc; Value::Node(0)]?, nodes),
    )?;
    assert_eq!(rt; form.len(), 2_999_999);
    Ok(())
}

/// Whether the graphs of two parts have one shape.
fn are_same(alloc: Global, one: Parts, other: Parts) -> Result<Option<bool>, AllocError> {
    let Some(Ok(one)) = make(one) else {
        return Ok(None);
    };
    let Some(Ok(other)) = make(other) else {
        return Ok(None);
    };
    Ok(Some(same_shape(alloc, &one, &other)?))
}

/// The parts of [[],#1], under two numberings, and of [[],[]].
fn drawn(alloc: Global, which: u8) -> Result<Parts, AllocError> {
    let empty = list(Vec::new(alloc));
    if which == 0 {
        let outer = list(vec![in alloc; Value::Node(1), Value::Node(1)]?);
        let nodes = vec![in alloc; outer, empty]?;
        return Ok(untyped(alloc, vec![in alloc; Value::Node(0)]?, nodes));
    }
    if which == 1 {
        let outer = list(vec![in alloc; Value::Node(0), Value::Node(0)]?);
        let nodes = vec![in alloc; empty, outer]?;
        return Ok(untyped(alloc, vec![in alloc; Value::Node(1)]?, nodes));
    }
    let outer = list(vec![in alloc; Value::Node(1), Value::Node(2)]?);
    let nodes = vec![in alloc; outer, empty, list(Vec::new(alloc))]?;
    Ok(untyped(alloc, vec![in alloc; Value::Node(0)]?, nodes))
}

#[test]
fn sharing_is_part_of_the_shape(rt: HostRuntime) -> Result<(), AllocError> {
    let alloc = rt.alloc();
    let same = are_same(alloc, drawn(alloc, 0)?, drawn(alloc, 1)?)?;
    assert_eq!(rt; same, Some(true));
    let same = are_same(alloc, drawn(alloc, 0)?, drawn(alloc, 2)?)?;
    assert_eq!(rt; same, Some(false));
    Ok(())
}

/// As many lists of one type with a long name as are asked for, and behind them one of a type with this name.
fn long_names(alloc: Global, count: u32, last: &str) -> Result<Parts, AllocError> {
    let mut nodes = Vec::new(alloc);
    let mut roots = Vec::new(alloc);
    for place in 0..count {
        let items = Items::from(Vec::new(alloc));
        nodes.push(Node::List {
            type_name: Some(0),
            items,
        })?;
        roots.push(Value::Node(place))?;
    }
    nodes.push(Node::Map {
        type_name: Some(1),
        pairs: Pairs::from(Vec::new(alloc)),
    })?;
    roots.push(Value::Node(count))?;
    let mut name = String::new(alloc);
    for _place in 0..1_000_000 {
        name.push('n')?;
    }
    let other = String::from_str(alloc, last)?;
    let mut parts = untyped(alloc, roots, nodes);
    parts.types = Texts::from(vec![in alloc; Chars::from(name), Chars::from(other)]?);
    Ok(parts)
}

#[test]
fn a_long_name_is_not_compared_for_each_node(rt: HostRuntime) -> Result<(), AllocError> {
    let alloc = rt.alloc();
    let one = long_names(alloc, 1_000_000, "a")?;
    let other = long_names(alloc, 1_000_000, "b")?;
    let same = are_same(alloc, one, other)?;
    assert_eq!(rt; same, Some(false));
    Ok(())
}
