//! What each kind of service answers to the graph of its arguments.

ghost use Rattle.std.specs.Prelude.{◌≡◌, ◌-◌, ◌<◌, ◌^◌, ◌∷◌, [], None, length, IfOk, MatchOption};
ghost use Rattle.hessian_graph.specs.declared.value.Value.TheVariants.{Node as ANode};
ghost use Rattle.hessian_graph.specs.Faults.{IsSound};
ghost use Rattle.hessian_graph.specs.Shape.{ListKind, ObjectKind, shape_of};
ghost use Rattle.service_table.specs.Endings.{ending_of};
ghost use Rattle.service_table.specs.Growing.{AddsAs, CanAdd};
ghost use Rattle.service_table.specs.Replies.{answer, first_of, first_alone, reversed, with_new, knot_class, overflow, overflow_class, sum_ending, total, added};

use crate::first::{copy_reversed, copy_text, first_of};
use crate::kind::Kind;
use crate::nodes::{
    first_alone, first_node, first_of_parts, lone, lone_object, with_class, with_new,
};
use crate::sum::{first_number, total};
use dubbo_bodies::Reply;
use hessian_graph::{Class, Graph, Items, Node, OutOfMemory, Parts, Texts, Value};
use std::alloc::Global;

/// How a call of this kind ends with these arguments.
pub(crate) fn answer(alloc: Global, kind: Kind, args: Graph) -> Result<Reply, OutOfMemory>
    requires few { length args.nodes < 2 ^ 31 - 1 }
    requires classes { length args.classes < 2 ^ 32 - 1 }
    ensures { IfOk result (λ reply. ending_of reply ≡ answer kind (shape_of args)) }
{
    let reply = match kind {
        Kind::Void => Reply::Value(lone(alloc, Value::Null)?),
        Kind::Echo => Reply::Value(first_alone(alloc, args)?),
        Kind::Args => Reply::Value(listed(alloc, args)?),
        Kind::Twice => Reply::Value(doubled(alloc, args)?),
        Kind::Reverse => Reply::Value(reversed(alloc, args)?),
        Kind::Sum => sum_reply(alloc, added_up(&args))?,
        Kind::Knot => Reply::Value(knotted(alloc, args)?),
        Kind::Throw => Reply::Threw(first_alone(alloc, args)?),
    };
    Ok(reply)
}

/// A new list of all arguments.
fn listed(alloc: Global, args: Graph) -> Result<Graph, OutOfMemory>
    requires few { length args.nodes < 2 ^ 31 - 1 }
    ensures { IfOk result (λ g. shape_of g ≡ with_new (ListKind None) args.roots (shape_of args)) }
{
    let Parts {
        roots,
        nodes,
        types,
        classes,
    } = args.into_parts();
    let rest = Parts {
        roots: Items::from(Vec::new(alloc)),
        nodes,
        types,
        classes,
    };
    with_new(
        alloc,
        rest,
        Node::List {
            type_name: None,
            items: roots,
        },
    )
}

/// A new list that has the first argument twice.
fn doubled(alloc: Global, args: Graph) -> Result<Graph, OutOfMemory>
    requires few { length args.nodes < 2 ^ 31 - 1 }
    ensures { IfOk result (λ g. let first = first_of (shape_of args) in shape_of g ≡ with_new (ListKind None) (first ∷ first ∷ []) (shape_of args)) }
{
    let args = args.into_parts();
    let one = first_of(alloc, args.roots.as_slice())?;
    let other = first_of(alloc, args.roots.as_slice())?;
    let items = vec![in alloc; one, other]?;
    with_new(
        alloc,
        args,
        Node::List {
            type_name: None,
            items: Items::from(items),
        },
    )
}

/// The first argument, with its items from the last to the first in a new list where it is a list.
fn reversed(alloc: Global, args: Graph) -> Result<Graph, OutOfMemory>
    requires few { length args.nodes < 2 ^ 31 - 1 }
    ensures { IfOk result (λ g. shape_of g ≡ reversed (shape_of args)) }
{
    let args = args.into_parts();
    match reversed_list(alloc, &args)? {
        Some(list) => with_new(alloc, args, list),
        None => first_of_parts(alloc, args),
    }
}

/// The first argument from the last item to the first, where it is a list.
fn reversed_list(alloc: Global, args: &Parts) -> Result<Option<Node>, OutOfMemory>
    requires sound { IsSound args.now }
    requires few { length args.now.nodes < 2 ^ 32 }
    ensures { IfOk result (λ list. MatchOption list
        (reversed (shape_of args.now) ≡ first_alone (shape_of args.now))
        (AddsAs args.now (reversed (shape_of args.now)))) }
{
    match first_node(args) {
        Some(Node::List { type_name, items }) => {
            let items = copy_reversed(alloc, items.as_slice())?;
            Ok(Some(Node::List {
                type_name: *type_name,
                items: Items::from(items),
            }))
        }
        _ => Ok(None),
    }
}

/// The sum of the first argument's ints and longs.
fn added_up(args: &Graph) -> i128
    ensures { result ≡ total (added (shape_of args.now)) }
{
    let args = args.parts();
    match first_node(args) {
        Some(Node::List { items, .. }) => total(items.as_slice()),
        _ => first_number(args.roots.as_slice()),
    }
}

/// A sum as a long, or an exception where a long has no room for it.
fn sum_reply(alloc: Global, sum: i128) -> Result<Reply, OutOfMemory>
    ensures { IfOk result (λ reply. ending_of reply ≡ sum_ending sum) }
{
    match i64::try_from(sum) {
        Ok(sum) => Ok(Reply::Value(lone(alloc, Value::Long(sum))?)),
        Err(_) => Ok(Reply::Threw(overflow(alloc)?)),
    }
}

/// An object that says that a sum has no room.
fn overflow(alloc: Global) -> Result<Graph, OutOfMemory>
    ensures { IfOk result (λ g. shape_of g ≡ overflow) }
{
    let name = copy_text(alloc, "demo.Overflow")?;
    let fields = Texts::from(Vec::new(alloc));
    lone_object(alloc, Class { name, fields })
}

/// A new object that has itself and the first argument as its values.
fn knotted(alloc: Global, args: Graph) -> Result<Graph, OutOfMemory>
    requires few { length args.nodes < 2 ^ 31 - 1 }
    requires classes { length args.classes < 2 ^ 32 - 1 }
    ensures { IfOk result (λ g. let itself = ANode (length args.nodes) in
        shape_of g ≡ with_new (ObjectKind knot_class) (itself ∷ first_of (shape_of args) ∷ []) (shape_of args)) }
{
    let args = args.into_parts();
    let itself = args.nodes.as_slice().len() as u32;
    let class = args.classes.as_slice().len() as u32;
    let mut values = Vec::with_capacity(alloc, 2)?;
    values.push(Value::Node(itself))?;
    values.push(first_of(alloc, args.roots.as_slice())?)?;
    let args = with_class(args, knot_class(alloc)?)?;
    with_new(
        alloc,
        args,
        Node::Object {
            class,
            values: Items::from(values),
        },
    )
}

/// The class of an object that has itself as a value.
fn knot_class(alloc: Global) -> Result<Class, OutOfMemory>
    ensures { IfOk result (λ class. class ≡ knot_class) }
{
    let mut fields = Vec::with_capacity(alloc, 2)?;
    fields.push(copy_text(alloc, "self")?)?;
    fields.push(copy_text(alloc, "value")?)?;
    Ok(Class {
        name: copy_text(alloc, "demo.Knot")?,
        fields: Texts::from(fields),
    })
}
