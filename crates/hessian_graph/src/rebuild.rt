//! The parts of a canonical form, put together after the visit.

ghost use Rattle.std.specs.Prelude.{◌≡◌, ℕ, ◌<◌, ◌≤◌, ◌+◌, ◌^◌, IfOk, OnOk, List, map, All, length, get_or, []};
ghost use Rattle.hessian_graph.specs.Shape.{shape_of, no_vertex};
ghost use Rattle.hessian_graph.specs.Canon.{in_order, Rises, given_number};
ghost use Rattle.hessian_graph.specs.InUse.{InOrderOfUse};
ghost use Rattle.hessian_graph.specs.Work.{IsClosed, Fine};
ghost use Rattle.hessian_graph.specs.Tables.{Remembers, NumberBelow, renamed_numbers};
ghost use Rattle.hessian_graph.specs.Moving.{NamesFit, NamesThere, TypeKnown, NodeKnown, AllThere, AllKnown, AllNodes, AllMoved, NamesNext, TablesRise};

use crate::moves::{move_node, move_values};
use crate::names::{ClassTable, Names, TypeTable};
use crate::node::{Classes, Node, Nodes};
use crate::parts::Parts;
use crate::text::Texts;
use crate::value::Items;
use crate::walk::Walk;
use std::alloc::{AllocError, Global};

impl Names {
    /// Makes the new number of a node's type or class known.
    fn learn(&mut self, alloc: Global, parts: &Parts, node: &Node) -> Result<(), AllocError>
        requires fit { NamesFit parts.now self.old }
        requires there { NamesThere parts.now.types parts.now.classes node.now }
        requires types_room { length self.old.types.words.texts.items < 2 ^ 32 }
        requires classes_room { length self.old.classes.rows.items < 2 ^ 32 }
        ensures fit { OnOk result (NamesFit parts.now self.new) }
        ensures known { OnOk result (NodeKnown self.new.types.known.items self.new.classes.known.items node.now) }
        ensures types { OnOk result (Remembers self.old.types.known.items self.new.types.known.items) }
        ensures classes { OnOk result (Remembers self.old.classes.known.items self.new.classes.known.items) }
        ensures next { OnOk result (NamesNext self.old self.new node.now) }
        ensures types_room { OnOk result (length self.new.types.words.texts.items ≤ length self.old.types.words.texts.items + 1) }
        ensures classes_room { OnOk result (length self.new.classes.rows.items ≤ length self.old.classes.rows.items + 1) }
    {
        match node {
            Node::List { type_name, .. } => self.learn_type(alloc, parts, *type_name),
            Node::Map { type_name, .. } => self.learn_type(alloc, parts, *type_name),
            Node::Object { class, .. } => self
                .classes
                .learn(alloc, parts.classes.as_slice(), *class),
        }
    }

    /// The parts of these roots and nodes, with the tables' names.
    fn into_parts(self, roots: Items, nodes: Nodes) -> Parts
        ensures { result ≡ record {
          roots = roots;
          nodes = nodes;
          types = self.types.words.texts.items;
          classes = self.classes.rows.items;
        } }
    {
        let types = self.types;
        let classes = self.classes;
        let words = types.words;
        Parts {
            roots,
            nodes,
            types: Texts::from(words.texts),
            classes: Classes::from(classes.rows),
        }
    }

    /// Makes the new number of a type known, where a node has one.
    fn learn_type(
        &mut self,
        alloc: Global,
        parts: &Parts,
        number: Option<u32>,
    ) -> Result<(), AllocError>
        requires fit { NamesFit parts.now self.old }
        requires there { NumberBelow (length parts.now.types) number }
        requires room { length self.old.types.words.texts.items < 2 ^ 32 }
        ensures fit { OnOk result (NamesFit parts.now self.new) }
        ensures known { OnOk result (TypeKnown self.new.types.known.items number) }
        ensures types { OnOk result (Remembers self.old.types.known.items self.new.types.known.items) }
        ensures classes { self.new.classes ≡ self.old.classes }
        ensures next { OnOk result (Rises (length self.old.types.words.texts.items)
            (renamed_numbers self.new.types.known.items (given_number number)) (length self.new.types.words.texts.items)) }
        ensures room { OnOk result (length self.new.types.words.texts.items ≤ length self.old.types.words.texts.items + 1) }
    {
        match number {
            Some(number) => self.types.learn(alloc, parts.types.as_slice(), number),
            None => Ok(()),
        }
    }
}

/// The node of a number.
fn node_at(parts: &Parts, number: u32) -> &Node
    requires { number < length parts.now.nodes }
    ensures { result.now ≡ get_or parts.now.nodes number no_vertex }
{
    &parts.nodes.as_slice()[number as usize]
}

/// The tables of the types and classes of these nodes, in the order of first use.
fn learn_names(alloc: Global, parts: &Parts, order: &[u32]) -> Result<Names, AllocError>
    requires there { AllThere parts.now.types parts.now.classes parts.now.nodes }
    requires nodes { AllNodes parts.now order.now }
    requires few { length order.now < 2 ^ 32 }
    ensures fit { IfOk result (NamesFit parts.now) }
    ensures known { IfOk result (λ n. AllKnown parts.now n order.now) }
    ensures rise { IfOk result (λ n. TablesRise parts.now n order.now) }
{
    let types = TypeTable::new(alloc, parts.types.as_slice())?;
    let classes = ClassTable::new(alloc, parts.classes.as_slice())?;
    let mut names = Names { types, classes };
    for number in order {
        let node = node_at(parts, *number);
        names.learn(alloc, parts, node)?;
    }
    Ok(names)
}

/// Copies of the nodes of the order, under the new numbers.
fn move_nodes(
    alloc: Global,
    parts: &Parts,
    walk: &Walk,
    names: &Names,
    order: &[u32],
) -> Result<Vec<Node>, AllocError>
    requires closed { IsClosed (shape_of parts.now) }
    requires fine { Fine (shape_of parts.now) walk.now }
    requires there { AllThere parts.now.types parts.now.classes parts.now.nodes }
    requires nodes { AllNodes parts.now order.now }
    requires fit { NamesFit parts.now names.now }
    requires known { AllKnown parts.now names.now order.now }
    ensures { IfOk result (λ ns. AllMoved parts.now names.now walk.now.order.items order.now ns.items) }
{
    let mut nodes = Vec::new(alloc);
    for number in order {
        let node = node_at(parts, *number);
        let copy = move_node(alloc, parts, walk, names, node)?;
        nodes.push(copy)?;
    }
    Ok(nodes)
}

/// The parts of the canonical form, after the visit.
pub fn rebuild(alloc: Global, parts: &Parts, walk: &Walk) -> Result<Parts, AllocError>
    requires closed { IsClosed (shape_of parts.now) }
    requires fine { Fine (shape_of parts.now) walk.now }
    requires there { AllThere parts.now.types parts.now.classes parts.now.nodes }
    requires nodes { AllNodes parts.now walk.now.order.items }
    ensures shape { IfOk result (λ p. shape_of p ≡ in_order (shape_of parts.now) walk.now.order.items) }
    ensures there { IfOk result (λ p. AllThere p.types p.classes p.nodes) }
    ensures tables { IfOk result InOrderOfUse }
{
    let order = walk.order.as_slice();
    let names = learn_names(alloc, parts, order)?;
    let old_roots = parts.roots.as_slice();
    let moved_roots = move_values(alloc, parts, walk, old_roots)?;
    let moved_nodes = move_nodes(alloc, parts, walk, &names, order)?;
    let roots = Items::from(moved_roots);
    let nodes = Nodes::from(moved_nodes);
    Ok(names.into_parts(roots, nodes))
}
