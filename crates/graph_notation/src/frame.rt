//! Nodes that are being read.

use crate::lists::{Names, Values};
use hessian_graph::Chars;

/// What a node is, as its brackets say.
#[derive(Drop)]
pub enum Head {
    /// A list, with its type or none.
    List(Option<Chars>),
    /// A map, with its type or none.
    Map(Option<Chars>),
    /// An object, with the name of its class.
    Object(Chars),
}

/// A node as far as it is read.
#[derive(Drop)]
pub struct Frame {
    /// The number of the node.
    pub number: u32,
    /// What the node is.
    pub head: Head,
    /// The names of an object's fields so far.
    pub names: Names,
    /// The values so far, a map's keys and values alternately.
    pub values: Values,
    /// Whether the last of them is a key that waits for its value.
    pub keyed: bool,
}

/// What may come next.
#[derive(Drop)]
pub enum Place {
    /// Behind a bracket that begins a node, or at the start of all: an entry, or the end.
    Start,
    /// Behind a comma: an entry.
    Next,
    /// Behind a colon: a value.
    Value,
    /// Behind a field's name: a colon.
    AfterField,
    /// Behind a value: a comma, a colon or the end.
    After,
    /// Behind `!`: a name.
    Type,
    /// Behind `!` and this name: a bracket.
    Bracket(Chars),
}

/// Why an element is refused.
#[derive(Clone, Copy)]
pub enum Cause {
    /// It can't stand where it is.
    Bad,
    /// It names a node of this number, which hasn't begun.
    Unknown(u32),
    /// It begins a node too many.
    TooMany,
}
