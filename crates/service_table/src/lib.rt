//! The services of a provider, and the direct call: what a call of one of them ends with.
//!
//! A service answers from the graph of its arguments alone, so arguments of one shape get replies of one shape.
#![tactic(auto)]

mod answers;
mod direct;
mod fault;
mod first;
mod kind;
pub mod laws;
mod name;
mod nodes;
mod row;
mod services;
mod sum;

pub use direct::call;
pub use fault::AddFault;
pub use kind::Kind;
pub use row::Row;
pub use services::Services;

#[cfg(test)]
mod tests;
