//! The notation of graphs: one text for each canonical form, printed and read, with sharing and cycles.
//!
//! A graph is its roots joined by `,`. A list is `[..]`, a map `{key:value,..}`, an object `!"Name"("field":value,..)`, a node
//! with a type `!"type"` before its bracket. A node that was begun before is `#` and its number.
#![tactic(auto)]

mod building;
mod class_texts;
mod contents;
mod element;
mod entries;
mod fault;
mod frame;
mod halt;
mod hex;
pub mod laws;
mod leaves;
mod lists;
mod name_table;
mod numbers;
mod plain;
mod press;
mod printed;
mod reader;
mod reading;
mod short_numbers;
mod stop;
mod token_ends;
mod words;
mod written_bytes;
mod written_numbers;

pub use fault::{NODE_LIMIT, NotationFault};
pub use hessian_graph::OutOfMemory;
pub use press::print_graph;
pub use printed::write_text;
pub use reading::read_notation;

#[cfg(test)]
mod tests;
