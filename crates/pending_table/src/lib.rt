//! A table of calls that wait for their replies.
//!
//! The owner of a slot opens an id there and looks until it is resolved; whoever reads replies, watches
//! the clock or meets a failure resolves ids through a window. An id is resolved at most once.
#![tactic(auto)]

mod answers;
mod fitting;
mod logs;
mod plain;
mod shared;
mod sides;
#[cfg(test)]
mod tests;
mod trace;
mod word;

pub use answers::{Abandoned, Look, Offered, Taken};
pub use fitting::{Fits, Tag};
pub use logs::{Claim, DeskLog, End, Ended, Opened, Reads, Sight, WindowLog};
pub use plain::{PlainDesk, PlainTable, PlainWindow};
pub use shared::{
    Closed, DeskPart, DeskSeat, SharedDesk, SharedTable, SharedWindow, TableKey, View, WindowPart,
    WindowSeat,
};
pub use sides::{Desk, Window};
pub use std::alloc::AllocError as OutOfMemory;
pub use word::SlotState;
