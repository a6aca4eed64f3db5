//! Ends that are readers and writers of the standard library. They tell no bytes.

mod std_sink;
mod std_source;

pub use std_sink::StdSink;
pub use std_source::StdSource;
