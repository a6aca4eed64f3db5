//! Frames of the Dubbo protocol: a header of sixteen bytes, then as many body bytes as it states.
//!
//! Nothing here opens a socket or reads a clock: bytes and moments come as values.
#![tactic(auto)]

mod beat;
mod begun;
mod body;
mod body_sink;
mod head;
mod laws;
mod next;
mod next_with;
mod paused;
mod reader;
mod sending;
mod window;

pub use beat::{Beat, BeatAct};
pub use body::Body;
pub use body_sink::BodySink;
pub use laws::{frames_are_unique, frames_of_a_prefix, frames_of_joined, frames_one_by_one};
pub use next::Next;
pub use next_with::NextWith;
pub use paused::Paused;
pub use reader::{FrameReader, Unmade};
pub use sending::send_frame;

#[cfg(test)]
mod tests;
