//! Graphs that are made from the parts of others.

ghost use Rattle.std.specs.Prelude.{◌≡◌, ◌++◌, ◌∷◌, ◌-◌, ◌<◌, ◌^◌, [], None, length, IfOk, MatchOption};
ghost use Rattle.hessian_graph.specs.Faults.{IsSound};
ghost use Rattle.hessian_graph.specs.Shape.{ObjectKind, Shape, node_of, shape_of};
ghost use Rattle.service_table.specs.Growing.{CanAdd, IsFirstNode, grown, with_class};
ghost use Rattle.service_table.specs.Replies.{first_of, first_alone, lone, lone_object};

use crate::first::first_of;
use hessian_graph::{Class, Classes, Graph, Items, Node, Nodes, OutOfMemory, Parts, Texts, Value};
use std::alloc::Global;

/// The graph of one value that names no node.
pub(crate) fn lone(alloc: Global, value: Value) -> Result<Graph, OutOfMemory>
    requires { node_of value ≡ None }
    ensures { IfOk result (λ g. shape_of g ≡ lone value) }
{
    let mut roots = Vec::with_capacity(alloc, 1)?;
    roots.push(value)?;
    Ok(Graph::from_sound(Parts {
        roots: Items::from(roots),
        nodes: Nodes::from(Vec::new(alloc)),
        types: Texts::from(Vec::new(alloc)),
        classes: Classes::from(Vec::new(alloc)),
    }))
}

/// The graph of one object, whose class has no fields.
pub(crate) fn lone_object(alloc: Global, class: Class) -> Result<Graph, OutOfMemory>
    requires { class.fields ≡ [] }
    ensures { IfOk result (λ g. shape_of g ≡ lone_object class) }
{
    let mut classes = Vec::with_capacity(alloc, 1)?;
    classes.push(class)?;
    let object = Node::Object {
        class: 0,
        values: Items::from(Vec::new(alloc)),
    };
    let none = Parts {
        roots: Items::from(Vec::new(alloc)),
        nodes: Nodes::from(Vec::new(alloc)),
        types: Texts::from(Vec::new(alloc)),
        classes: Classes::from(classes),
    };
    with_new(alloc, none, object)
}

/// The graph whose one root is the first argument.
pub(crate) fn first_alone(alloc: Global, args: Graph) -> Result<Graph, OutOfMemory>
    ensures { IfOk result (λ g. shape_of g ≡ first_alone (shape_of args)) }
{
    first_of_parts(alloc, args.into_parts())
}

/// The same of the parts of arguments.
pub(crate) fn first_of_parts(alloc: Global, args: Parts) -> Result<Graph, OutOfMemory>
    requires sound { IsSound args }
    requires few { length args.nodes < 2 ^ 32 }
    ensures { IfOk result (λ g. shape_of g ≡ first_alone (shape_of args)) }
{
    let mut roots = Vec::with_capacity(alloc, 1)?;
    roots.push(first_of(alloc, args.roots.as_slice())?)?;
    Ok(Graph::from_sound(Parts {
        roots: Items::from(roots),
        ..args
    }))
}

/// The node that the first argument names, if it names one.
pub(crate) fn first_node(args: &Parts) -> Option<&Node>
    requires sound { IsSound args.now }
    requires few { length args.now.nodes < 2 ^ 32 }
    ensures { MatchOption result
        (node_of (first_of (shape_of args.now)) ≡ None) (λ node. IsFirstNode args.now node.now) }
{
    match args.roots.as_slice() {
        [Value::Node(number), ..] => Some(&args.nodes.as_slice()[*number as usize]),
        _ => None,
    }
}

/// Parts with one more node, which is the one root.
pub(crate) fn with_new(alloc: Global, args: Parts, node: Node) -> Result<Graph, OutOfMemory>
    requires sound { IsSound args }
    requires few { length args.nodes < 2 ^ 32 - 1 }
    requires can { CanAdd args node }
    ensures { IfOk result (λ g. shape_of g ≡ grown args node) }
{
    let number = args.nodes.as_slice().len() as u32;
    let mut nodes = args.nodes.into_inner();
    nodes.push(node)?;
    let mut roots = Vec::with_capacity(alloc, 1)?;
    roots.push(Value::Node(number))?;
    Ok(Graph::from_sound(Parts {
        roots: Items::from(roots),
        nodes: Nodes::from(nodes),
        types: args.types,
        classes: args.classes,
    }))
}

/// Parts with one more class, behind the others.
pub(crate) fn with_class(args: Parts, class: Class) -> Result<Parts, OutOfMemory>
    requires sound { IsSound args }
    requires few { length args.nodes < 2 ^ 32 }
    ensures sound { IfOk result IsSound }
    ensures more { IfOk result (λ more. more ≡ with_class args class) }
{
    let mut classes = args.classes.into_inner();
    classes.push(class)?;
    Ok(Parts {
        classes: Classes::from(classes),
        ..args
    })
}
