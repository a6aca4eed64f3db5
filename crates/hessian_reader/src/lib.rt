//! Graphs from the bytes of Hessian 2, whole or as they come.
//!
//! A reading goes through elements: a leaf, the code of a node, an int or a text in its place. A lexer finds the
//! elements in the bytes, and each element takes the tables and the open nodes one step on.
#![tactic(auto)]

mod chunks;
mod course;
mod element;
mod fault;
mod finish;
mod grow;
mod law;
mod leaves;
mod lexer;
mod names;
mod pairs;
mod place;
mod reader;
mod reading;
mod run;
mod stop;
mod store;
mod table;
mod values;
mod work;

pub use fault::HessianFault;
pub use law::{
    a_refusal_stays, bytes_denote_one_graph, bytes_have_one_refusal, fronts_of_a_graph_are_short,
    no_graph_is_refused,
};
pub use reader::{Fed, GraphReader};
pub use reading::read_graph;

#[cfg(test)]
mod tests;
