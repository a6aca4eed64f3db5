//! What a body says: a request, or a reply.

use crate::attachment::Attachments;
use hessian_graph::{Chars, Graph};

/// A call of a method: what its body says.
#[derive(Drop)]
pub struct Request {
    /// The version of Dubbo at the caller.
    pub dubbo: Chars,
    /// The path of the service, mostly the name of its interface.
    pub path: Chars,
    /// The version of the service, or the empty text.
    pub version: Chars,
    /// The name of the method.
    pub method: Chars,
    /// The types of the method's parameters, as a descriptor of the Java virtual machine.
    pub desc: Chars,
    /// The arguments: a root for each parameter.
    pub args: Graph,
    /// Named texts beside the arguments.
    pub attachments: Attachments,
}

/// How a call ended: what the body of its reply says.
#[derive(Drop)]
pub enum Reply {
    /// A value, the one root of this graph.
    Value(Graph),
    /// An exception, the one root of this graph.
    Threw(Graph),
    /// No value: a status of the header other than 20, and a text.
    Status {
        /// The status.
        code: u8,
        /// Why, for a reader.
        text: Chars,
    },
}
