//! The header of a Dubbo frame: sixteen bytes, and what they say.
//!
//! Nothing here takes memory, reads a source or opens a socket: bytes come and go as values.
#![tactic(auto)]

mod flags;
mod header;
mod laws;

pub use header::{BODY_LIMIT, Header, HeaderFault, read_header, write_header};
pub use laws::one_spelling;

#[cfg(test)]
mod tests;
