//! Plays scripts of calls over links in memory.
//!
//! A script of the first form names services that answer with their argument, and the calls to them.
//! The first link asks, answers and prints these calls on one thread.
#![tactic(auto)]

mod first_frames;
mod first_lines;
mod first_replies;
mod first_requests;
mod first_run;
mod first_script;
mod first_texts;

pub use first_run::first_link;
pub use first_script::{FirstCall, FirstFault, FirstScript, first_script_laws};
pub use hessian_scalars::OutOfMemory;
