//! The provider's side of a link: what each frame asks for, and the answers to it.
//!
//! `serve_link` reads the frames of a source and writes their answers to a sink, in the order of the frames.
#![tactic(auto)]

mod answering;
mod asked;
mod calling;
mod reading;
mod sending;
mod serving;
mod session;
mod turn;

pub use serving::serve_link;
pub use session::{ServeFault, Served, Session};

#[cfg(test)]
mod tests;
