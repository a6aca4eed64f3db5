//! What the seats of a shared table know. No value of these types is ever made but the key.
use crate::{DeskLog, Taken, WindowLog};
use std::collections::LinkedList;
use std::snapshot::Snapshot;

/// What the seat of a desk knows.
pub struct DeskPart<R> {
    pub slot: u64,
    pub log: DeskLog<R>,
    /// The value that it took, while it has the slot's turn.
    pub taken: Option<Taken<R>>,
}

/// What the seat of a window knows.
pub struct WindowPart<R> {
    pub number: u64,
    pub log: WindowLog<R>,
    /// The id that it has claimed and not yet done, with the value.
    pub giving: Option<(u64, Taken<R>)>,
}

/// What a seat knows: the key, unless it was joined into another seat, and the parts that it holds.
pub struct View<R, K> {
    pub key: Option<K>,
    pub desks: LinkedList<DeskPart<R>>,
    pub windows: LinkedList<WindowPart<R>>,
}

/// The key of the table, held together with the number of slots.
#[derive(Drop)]
pub struct TableKey<K> {
    pub key: Snapshot<K>,
    pub slots: u32,
}
