//! Calls, and how a call ends.

use dubbo_bodies::Request;
use hessian_graph::{Chars, Graph};

/// What a caller does where an attempt ends without a value.
#[derive(Clone, Copy, Debug, PartialEq, Eq)]
pub enum Mode {
    /// It tries again.
    Failover,
    /// The one attempt decides.
    Failfast,
    /// The one attempt decides, and a fault is ignored.
    Failsafe,
    /// Several links are asked at the same time, and the first value or exception counts.
    Forking,
    /// No answer is waited for.
    Oneway,
}

/// One call of a script.
#[derive(Drop)]
pub struct Call {
    /// The line of the script, counted from 1.
    pub line: u32,
    /// What is sent: the service, the arguments, and four attachments.
    pub request: Request,
    /// What is done where an attempt fails.
    pub mode: Mode,
    /// How long an answer is waited for, in milliseconds: from 1 to 2,147,483,647.
    pub timeout: u64,
    /// How often `Failover` tries again, at most 15; the other modes don't use it.
    pub retries: u32,
    /// How many links `Forking` asks, from 1 to 8; the other modes don't use it.
    pub forks: u32,
}

/// How a call ended.
#[derive(Drop)]
pub enum CallResult {
    /// With a value, the one root of this graph.
    Value(Graph),
    /// With an exception, the one root of this graph.
    Threw(Graph),
    /// With a status of the provider that tells of no value.
    Status {
        /// The status.
        code: u8,
        /// Why, for a reader.
        text: Chars,
    },
    /// No answer came before the deadline.
    Timeout {
        /// The deadline, in milliseconds.
        deadline: u64,
        /// The moment at which the deadline was seen to be over, in milliseconds.
        moment: u64,
    },
    /// An end of the link failed.
    Lost {
        /// The number of the link, from 0.
        link: u32,
        /// How often that end had failed.
        faults: u64,
    },
    /// The answers of the link are damaged.
    Broken {
        /// The number of the link, from 0.
        link: u32,
        /// The place of the damaged frame's first byte, from 0.
        at: u64,
    },
    /// It was sent, and no answer is waited for.
    Sent,
    /// No memory was found for it.
    NoMemory,
}
