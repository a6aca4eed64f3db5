//! What a desk and a window answer.

/// What an id was resolved with.
#[derive(Debug, Drop, PartialEq, Eq)]
pub enum Taken<R> {
    /// A reply that fits the id.
    Reply(R),
    /// The deadline came, at this moment or before it; both in milliseconds.
    Timeout { deadline: u64, moment: u64 },
    /// The reply's frame, at this place among the bytes of the answers, can't be read.
    Broken { at: u64 },
    /// There was no memory to read the reply.
    NoMemory,
}

/// What a desk finds of its open id.
#[derive(Debug, Drop, PartialEq, Eq)]
pub enum Look<R> {
    /// It was resolved, and the desk is free.
    Ready(Taken<R>),
    /// It still waits, or is being resolved.
    Pending,
    /// The link was lost for the cause with this number, and the desk is free.
    Lost { number: u64 },
}

/// What became of a value that a window offered for an id.
#[derive(Debug, Drop, PartialEq, Eq)]
pub enum Offered<R> {
    /// It resolved the id.
    Taken,
    /// The id didn't wait: the word that was seen instead, and the value again.
    Dropped { seen: u64, given: Taken<R> },
}

/// What became of an id that a desk gives up.
#[derive(Clone, Copy, Debug, PartialEq, Eq)]
pub enum Abandoned {
    /// It still waited, and the desk is free.
    Free,
    /// It is being resolved or is resolved already, and stays open.
    Claimed,
}
