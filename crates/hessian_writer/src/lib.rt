//! Graphs as Hessian 2 bytes, in one spelling.
//!
//! The writer takes the shortest form of each scalar, states the length of each list, defines a class just before its first
//! object, and names a node, a type or a class that has been written by its number. Nodes are numbered as they begin.
#![tactic(auto)]

mod carried;
mod head;
mod keys;
pub mod laws;
mod leaf;
mod names;
mod numbering;
mod run;
mod writable;
mod writer;
mod writing;

pub use std::alloc::AllocError as OutOfMemory;
pub use writable::is_writable;
pub use writing::{write_graph, write_graph_behind};

#[cfg(test)]
mod tests;
