//! Texts and binaries of the Hessian 2.0 Serialization Protocol, in chunks of units.
//!
//! Both are spelled alike: a head states how many units follow, and a code says whether the chunk
//! is the last. A unit is a byte of a binary, or sixteen bits of a text in UTF-16.
#![tactic(auto)]

mod at_once;
mod fault;
mod laws;
mod reader;
mod reading;
mod stage;
mod step;
mod units;
mod writing;

pub use at_once::text_at_once;
pub use fault::{BinaryFault, OutOfMemory, TextFault};
pub use laws::{
    no_refusal_of_a_binary, no_refusal_of_a_text, one_refusal_of_binary, one_refusal_of_text,
    reading_goes_on, spelled_once, written_binary_spells, written_text_spells,
};
pub use reader::ChunkReader;
pub use reading::{read_binary, read_text};
pub use stage::{Begun, Kind, Letter, Part, Stage};
pub use step::{Fed, Item, Step};
pub use writing::{write_binary, write_text};

#[cfg(test)]
mod tests;
