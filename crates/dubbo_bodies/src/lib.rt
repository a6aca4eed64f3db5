//! Bodies of Dubbo requests and replies with Hessian 2 values, both ways.
//!
//! A request's descriptor says how many argument values its body has. A body has at most 8,388,608 bytes.
#![tactic(auto)]

mod attachment;
mod descriptor;
mod fault;
mod fault_behind;
mod fault_text;
mod fed_bytes;
pub mod front_laws;
pub mod laws;
mod limit;
mod message;
mod pieces;
mod read_attachments;
mod reading;
pub mod reading_laws;
mod reply_fault;
pub mod reply_laws;
mod reply_reader;
mod reply_reading;
mod request_reader;
mod stage;
mod writing;

pub use attachment::{Attachment, Attachments};
pub use descriptor::{MOST_ARGS, count_args};
pub use fault::{DescFault, RequestFault, WriteBodyFault};
pub use fault_text::{FaultText, bytes_text, reply_text, request_text};
pub use message::{Reply, Request};
pub use reading::read_request;
pub use reply_fault::ReplyFault;
pub use reply_reader::ReplyReader;
pub use reply_reading::read_reply;
pub use request_reader::RequestReader;
pub use writing::{write_reply, write_request};

#[cfg(test)]
mod reply_tests;
#[cfg(test)]
mod request_tests;
#[cfg(test)]
mod tests;
#[cfg(test)]
mod written_tests;
