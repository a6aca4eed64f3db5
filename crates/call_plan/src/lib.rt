//! Scripts of services and calls, the line that tells how a call ended, and the transcript of the direct calls.
//!
//! A script is text. Its lines count from 1, its calls from 0. Nothing here opens a link or reads a clock.
#![tactic(auto)]

mod calls;
mod direct_lines;
mod fault;
pub mod laws;
mod lines;
mod scripts;

pub use calls::{Call, CallResult, Mode};
pub use direct_lines::direct;
pub use fault::ScriptFault;
pub use hessian_graph::OutOfMemory;
pub use lines::print_line;
pub use scripts::{CALL_LIMIT, NODE_LIMIT, Script};

#[cfg(test)]
mod tests;
