//! Rows of a table of services.

use crate::kind::Kind;
use hessian_graph::Chars;

/// A service: what a request names it by, and what it does.
#[derive(Drop)]
pub struct Row {
    /// The path of the service, mostly the name of its interface.
    pub path: Chars,
    /// The version of the service, or the empty text.
    pub version: Chars,
    /// The name of the method.
    pub method: Chars,
    /// The types of the method's parameters, as a descriptor of the Java virtual machine.
    pub desc: Chars,
    /// What the service does.
    pub kind: Kind,
}
