//! What contracts see of a desk and of a window: the record that its own calls alone change.
//!
//! No value of these types is ever made.
use crate::Taken;
use std::collections::LinkedList;

/// An id that was opened, with its deadline in milliseconds.
pub struct Opened {
    pub id: u64,
    pub deadline: u64,
}

/// How an open id ended.
pub enum End<R> {
    Ready(Taken<R>),
    Lost { number: u64 },
    Freed,
}

/// An id that ended.
pub struct Ended<R> {
    pub id: u64,
    pub end: End<R>,
}

/// How often a desk has loaded the word of its slot and the lost word, and what each load last gave.
pub struct Reads {
    pub loads: u64,
    pub seen: u64,
    pub lost_loads: u64,
    pub lost: u64,
}

/// The record of a desk.
pub struct DeskLog<R> {
    /// One more than the last id that was opened, or 0 where none was.
    pub last: u64,
    /// Whether the last id is open.
    pub is_open: bool,
    /// The deadline that was stored last.
    pub deadline: u64,
    /// Each id that was opened, in order.
    pub opened: LinkedList<Opened>,
    /// Each id that ended, in the same order.
    pub ended: LinkedList<Ended<R>>,
    pub reads: Reads,
}

/// An id that a window resolved, and what with.
pub struct Claim<R> {
    pub id: u64,
    pub given: Taken<R>,
}

/// What a window saw of a slot in the call at hand.
#[derive(Drop)]
pub enum Sight {
    /// The slot's word.
    Word {
        slot: u64,
        word: u64,
    },
    /// It waited with this id, whose deadline is still to come.
    Due {
        slot: u64,
        id: u64,
        deadline: u64,
    },
    /// It waited with this id, whose deadline has come, and the window claimed the id.
    Claimed {
        slot: u64,
        id: u64,
        deadline: u64,
    },
    /// The same, but the claim found this word instead.
    Missed {
        slot: u64,
        id: u64,
        deadline: u64,
        word: u64,
    },
}

/// The record of a window.
pub struct WindowLog<R> {
    /// Each id that it resolved, in order.
    pub claims: LinkedList<Claim<R>>,
    /// The number that it set as lost, or 0.
    pub set: u64,
    /// The number that kept it from setting one, or 0.
    pub lost: u64,
    pub sights: LinkedList<Sight>,
}
