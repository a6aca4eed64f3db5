//! Nodes and classes, and their tables.

ghost use Rattle.std.specs.Prelude.{◌≡◌};

use crate::text::{Chars, Texts};
use crate::value::{Items, Pairs};
use std::marker::Model;

/// A class: its name and the names of its fields.
#[derive(Drop)]
pub struct Class {
    /// The name of the class.
    pub name: Chars,
    /// The names of the fields, in order.
    pub fields: Texts,
}

/// A list, a map or an object.
///
/// A type's number is its place in the table of types, a class's number its place in the table of classes.
#[derive(Drop)]
pub enum Node {
    /// A list.
    List {
        /// The number of its type, where it has one.
        type_name: Option<u32>,
        /// Its items, in order.
        items: Items,
    },
    /// A map.
    Map {
        /// The number of its type, where it has one.
        type_name: Option<u32>,
        /// Its pairs, in order.
        pairs: Pairs,
    },
    /// An object.
    Object {
        /// The number of its class.
        class: u32,
        /// The values of its fields, in the order of the class's names.
        values: Items,
    },
}

/// A table of classes.
#[derive(Drop)]
pub struct Classes {
    inner: Vec<Class>,
}

impl Model for Classes {
    ghost use Rattle.std.specs.Prelude.{List};
    ghost use Rattle.hessian_graph.specs.declared.node.Class.{Class as Names};

    ghost Value = { List Names };

    ghost view = { λ a. a.inner.items };
}

impl Classes {
    /// The classes of this vector.
    pub fn from(inner: Vec<Class>) -> Classes
        ensures { result ≡ inner.items }
    {
        Classes { inner }
    }

    /// The classes as a slice.
    pub fn as_slice(&self) -> &[Class]
        ensures { result.now ≡ self.now }
    {
        self.inner.as_slice()
    }

    /// The vector that was handed in.
    pub fn into_inner(self) -> Vec<Class>
        ensures { result.items ≡ self }
    {
        self.inner
    }
}

/// A table of nodes. A node's number is its place, which counts from 0.
#[derive(Drop)]
pub struct Nodes {
    inner: Vec<Node>,
}

impl Model for Nodes {
    ghost use Rattle.std.specs.Prelude.{List};
    ghost use Rattle.hessian_graph.specs.declared.node.Node.{Node as Vertex};

    ghost Value = { List Vertex };

    ghost view = { λ a. a.inner.items };
}

impl Nodes {
    /// The nodes of this vector.
    pub fn from(inner: Vec<Node>) -> Nodes
        ensures { result ≡ inner.items }
    {
        Nodes { inner }
    }

    /// The nodes as a slice.
    pub fn as_slice(&self) -> &[Node]
        ensures { result.now ≡ self.now }
    {
        self.inner.as_slice()
    }

    /// The vector that was handed in.
    pub fn into_inner(self) -> Vec<Node>
        ensures { result.items ≡ self }
    {
        self.inner
    }
}
