//! Null, booleans, ints, longs and dates as Hessian 2 bytes, both ways.
//!
//! A value has several spellings. The readers take them all, the writers give the shortest.
#![tactic(auto)]

mod at_once;
mod code;
mod fault;
mod front;
mod int;
mod law;
mod reader;
mod scalar;
mod write;

pub use at_once::scalar_at_once;
pub use fault::{OutOfMemory, ScalarFault};
pub use front::Front;
pub use int::{begins_int, read_int, write_int};
pub use law::{
    bytes_have_one_value, int_codes_begin_ints_alone, no_spelling_goes_on, writer_has_one_spelling,
    written_is_read_back,
};
pub use reader::{ScalarReader, read_scalar};
pub use scalar::Scalar;
pub use write::write_scalar;

#[cfg(test)]
mod tests;
