//! A ring of named providers that chooses one per key, so that few keys move as names come and go.
//!
//! Each name has 160 points on the ring, and a key gets the name of the point that it comes to.
#![tactic(auto)]

mod fault;
mod held;
mod laws;
mod name;
mod point;
mod ring;

pub use fault::RingFault;
pub use laws::{one_choice, order_is_free, putting_in, taking_out};
pub use name::NAME_LIMIT;
pub use ring::{RING_LIMIT, Ring};

#[cfg(test)]
mod tests;
