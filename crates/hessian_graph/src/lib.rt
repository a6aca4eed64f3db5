//! Graphs of values as Hessian 2 carries them: shared and cyclic nodes, held in one flat table.
//!
//! A graph has roots and numbered nodes. Its canonical form keeps the reached nodes alone, in the order of a first visit.
#![tactic(auto)]

mod canonical;
mod check;
mod copy;
mod graph;
pub mod laws;
mod moves;
mod names;
mod node;
mod parts;
mod rebuild;
mod same;
pub mod spelling_laws;
mod text;
mod value;
mod walk;

pub use canonical::{canon, same_shape};
pub use graph::Graph;
pub use node::{Class, Classes, Node, Nodes};
pub use parts::{Parts, PartsFault};
pub use std::alloc::AllocError as OutOfMemory;
pub use text::{Chars, Octets, Texts};
pub use value::{Items, Pair, Pairs, Value};

#[cfg(test)]
mod tests;
