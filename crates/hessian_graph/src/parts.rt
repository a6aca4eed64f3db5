//! The parts of a graph.

use crate::node::{Classes, Nodes};
use crate::text::Texts;
use crate::value::Items;
use thiserror::Error;

/// What a graph is made of.
#[derive(Drop)]
pub struct Parts {
    /// The roots, in order.
    pub roots: Items,
    /// The nodes, in the order of their numbers.
    pub nodes: Nodes,
    /// The types, in the order of their numbers.
    pub types: Texts,
    /// The classes, in the order of their numbers.
    pub classes: Classes,
}

/// Why parts are no graph.
#[derive(Clone, Copy, Debug, PartialEq, Eq, Error)]
pub enum PartsFault {
    /// A value names a node that isn't there.
    #[error("there is no node {number}")]
    BadNode {
        /// The number of no node.
        number: u32,
    },
    /// A node names a type that isn't there.
    #[error("there is no type {number}")]
    BadTypeName {
        /// The number of no type.
        number: u32,
    },
    /// A node names a class that isn't there.
    #[error("there is no class {number}")]
    BadClass {
        /// The number of no class.
        number: u32,
    },
    /// An object hasn't as many values as its class has fields.
    #[error("node {node} hasn't as many values as its class has fields")]
    BadFieldCount {
        /// The number of the object's node.
        node: u32,
    },
}
