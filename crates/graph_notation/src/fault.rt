//! Why a text is no notation.

use thiserror::Error;

/// The most nodes that a notation may have.
pub const NODE_LIMIT: usize = 1_000_000;

/// Why a text is no notation of a graph. A place counts the text's bytes from 0.
#[derive(Clone, Copy, Debug, PartialEq, Eq, Error)]
pub enum NotationFault {
    /// A token that is no form or can't stand where it is, or the text's end where a token must come.
    #[error("byte {at} goes on with no notation")]
    BadNotation {
        /// The place of the token, or of the end.
        at: usize,
    },
    /// A reference to a node that hasn't begun.
    #[error("the node {number} at byte {at} hasn't begun")]
    UnknownNode {
        /// The place of its `#`.
        at: usize,
        /// The number of the node.
        number: u32,
    },
    /// One node more than `NODE_LIMIT`.
    #[error("byte {at} begins a node too many")]
    TooManyNodes {
        /// The place of the node's bracket, or of the `!` before it.
        at: usize,
    },
    /// No memory was found.
    #[error("out of memory")]
    OutOfMemory,
}
