//! The pending table that threads share, on words and slots that change in single atomic steps.
mod closed;
mod closing;
mod cutting;
mod desk;
mod desk_calls;
mod desk_steps;
mod meaning;
mod parts;
mod plays;
mod rule;
mod seats;
mod table;
mod window;
mod window_calls;
mod window_steps;

use crate::Taken;
use crate::shared::meaning::Meaning;
use crate::shared::rule::PendingRule;
use atomic_table::{Seat, Shared, Table};
pub use closed::Closed;
pub use desk::SharedDesk;
pub use parts::{DeskPart, TableKey, View, WindowPart};
pub use seats::{DeskSeat, WindowSeat};
use std::alloc::Global;
pub use table::SharedTable;
pub use window::SharedWindow;

/// The words and slots of a table, as threads see them.
type Words<R> = Shared<
    Option<Taken<R>>,
    View<R, <R as Meaning>::Key>,
    TableKey<<R as Meaning>::Key>,
    PendingRule<R>,
>;

/// The words and slots of a table, with their memory.
type Made<R> = Table<
    Option<Taken<R>>,
    View<R, <R as Meaning>::Key>,
    TableKey<<R as Meaning>::Key>,
    PendingRule<R>,
    Global,
>;

/// A seat at the table.
type PartSeat<R> = Seat<Option<Taken<R>>, View<R, <R as Meaning>::Key>>;
