//! Whole runs, a file for each command.

mod codec;
mod direct;
mod frames;
mod play;
mod ring;

use dubbo_io::MemSink;
use std::alloc::{AllocError, Global};

/// Words of a command line.
pub fn words_of(alloc: Global, words: &[&str]) -> Result<Vec<String>, AllocError> {
    let mut all = Vec::new(alloc);
    for word in words {
        all.push(String::from_str(alloc, word)?)?;
    }
    Ok(all)
}

/// What came of a run: its status and the bytes that are gone into its output.
#[derive(Drop)]
pub struct Outcome {
    pub status: u8,
    pub output: MemSink,
}
