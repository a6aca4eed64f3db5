//! The nodes that have begun, in the form in which a graph has them.

ghost use Rattle.std.specs.Prelude.{◌≡◌, ◌++◌, ◌∷◌, [], length, OnOk, IfOk};
ghost use Rattle.hessian_reader.specs.Finish.{AreNodesOf};
ghost use Rattle.hessian_reader.specs.Nodes.{HasNoPairs, and_items};
ghost use Rattle.hessian_reader.specs.Runs.{AddsValues, GrowsBy, PutsInto};
ghost use Rattle.hessian_reader.specs.States.{with_item};

use crate::grow::push;
use crate::pairs::make_pairs;
use crate::values::{Taken, push_value, push_values};
use hessian_graph::{Items, Node, Value};
use std::alloc::{AllocError, Global};
use std::marker::Model;

/// What a node is, with the number of its type or class.
#[derive(Clone, Copy)]
pub enum Sort {
    /// A list, with its type where it has one.
    List(Option<u32>),
    /// A map, with its type where it has one.
    Map(Option<u32>),
    /// An object of this class.
    Object(u32),
}

/// The nodes that have begun, by their numbers.
#[derive(Drop)]
pub struct NodeTable {
    nodes: Vec<Node>,
    /// The numbers of the maps. Until the table ends, each is a list whose items are its keys and values, which come
    /// alternately.
    maps: Vec<u32>,
}

impl Model for NodeTable {
    ghost use Rattle.std.specs.Prelude.{List};
    ghost use Rattle.hessian_reader.specs.Nodes.{Begun, IsKept, begun_from};

    ghost Value = { List Begun };

    ghost view = { λ t. begun_from t.maps.items 0 t.nodes.items };

    ghost invariant = { λ t. IsKept t.maps.items t.nodes.items };
}

/// Adds a value to a node that has begun.
#[inline(always)]
fn push_to(node: &mut Node, value: Value, room: usize) -> Result<(), AllocError>
    requires { HasNoPairs node.old }
    ensures unpaired { HasNoPairs node.new }
    ensures added { OnOk result (node.new ≡ and_items node.old (value ∷ [])) }
{
    match node {
        Node::List { items, .. } => push_value(items, value, room),
        // Until the pairs are made no node of the table is a map.
        Node::Map { .. } => Ok(()),
        Node::Object { values, .. } => push_value(values, value, room),
    }
}

/// Adds to a node that has begun the leaves and the references to one of so many nodes that lie whole at the front of a
/// piece, but no more than so many.
#[inline(always)]
fn push_run_to(
    alloc: Global,
    node: &mut Node,
    piece: &[u8],
    most: usize,
    nodes: usize,
) -> Result<Taken, AllocError>
    requires { HasNoPairs node.old }
    ensures unpaired { HasNoPairs node.new }
    ensures added { IfOk result (GrowsBy nodes node.old piece.now most node.new) }
{
    match node {
        Node::List { items, .. } => push_values(alloc, items, piece, most, nodes),
        // Until the pairs are made no node of the table is a map.
        Node::Map { .. } => Ok(Taken {
            values: 0,
            bytes: 0,
        }),
        Node::Object { values, .. } => push_values(alloc, values, piece, most, nodes),
    }
}

impl NodeTable {
    /// No nodes.
    pub fn new(alloc: Global) -> NodeTable
        ensures { result ≡ [] }
    {
        NodeTable {
            nodes: Vec::new(alloc),
            maps: Vec::new(alloc),
        }
    }

    /// How many nodes have begun.
    pub fn len(&self) -> usize
        ensures { result ≡ length self.now }
    {
        self.nodes.len()
    }

    /// Begins the next node, whose number this is.
    #[inline(always)]
    pub fn begin(&mut self, alloc: Global, node: u32, sort: Sort) -> Result<(), AllocError>
        requires { node ≡ length self.old }
        ensures { OnOk result (self.new ≡ self.old ++ record { sort = sort; values = [] } ∷ []) }
    {
        let items = Items::from(Vec::new(alloc));
        match sort {
            Sort::List(type_name) => push(&mut self.nodes, Node::List { type_name, items }),
            Sort::Map(type_name) => {
                push(&mut self.nodes, Node::List { type_name, items })?;
                push(&mut self.maps, node)
            }
            Sort::Object(class) => push(
                &mut self.nodes,
                Node::Object {
                    class,
                    values: items,
                },
            ),
        }
    }

    /// Adds a value to the node of this number, which still lacks so many where that is known.
    #[inline(always)]
    pub fn push(&mut self, node: u32, value: Value, room: usize) -> Result<(), AllocError>
        ensures { OnOk result (self.new ≡ with_item self.old node value) }
    {
        let place = node as usize;
        if place < self.nodes.len() {
            push_to(&mut self.nodes[place], value, room)?;
        }
        Ok(())
    }

    /// Adds to the node of this number the leaves and references that lie whole at the front of a piece, but no more than so
    /// many.
    #[inline(always)]
    pub fn push_values(
        &mut self,
        alloc: Global,
        node: u32,
        piece: &[u8],
        most: usize,
    ) -> Result<Taken, AllocError>
        ensures { IfOk result (PutsInto self.old node piece.now most self.new) }
    {
        let place = node as usize;
        let nodes = self.nodes.len();
        if place < nodes {
            push_run_to(alloc, &mut self.nodes[place], piece, most, nodes)
        } else {
            Ok(Taken {
                values: 0,
                bytes: 0,
            })
        }
    }

    /// The nodes, where each of them lacks nothing.
    pub fn into_nodes(self, alloc: Global) -> Result<Vec<Node>, AllocError>
        ensures { IfOk result (λ nodes. AreNodesOf self nodes.items) }
    {
        let NodeTable { mut nodes, maps } = self;
        for map in maps {
            make_pairs(alloc, &mut nodes[map as usize])?;
        }
        Ok(nodes)
    }
}
