//! Where bytes come from and where they go, and what contracts know of both.
//!
//! Contracts see a source as a `SourceState` and a sink as a `SinkState`. An end may tell its bytes or
//! not. It always counts its faults, so that a refusal can be shown to come only where that count rose.
#![tactic(auto)]

mod counts;
mod memory;
mod reading;
mod sink;
mod source;
mod standard;
mod writing;

pub use memory::{MemSink, MemSource};
pub use reading::{ReadFault, read_all};
pub use sink::{Flushed, Sink, Took};
pub use source::{Got, Source};
pub use standard::{StdSink, StdSource};
pub use std::alloc::AllocError as OutOfMemory;
pub use writing::{WriteFault, write_all};

#[cfg(test)]
mod tests;
