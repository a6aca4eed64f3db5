//! The table that threads share, with its memory.
ghost use Rattle.std.specs.Prelude.{◌≡◌, ℕ, ◌+◌, ◌*◌, ◌<◌, IfOk, [], false, length, map};
ghost use Rattle.pending_table.specs.Elements.{EachAt};
ghost use Rattle.pending_table.specs.SharedViews.{whole_view};

use crate::shared::closing::close;
use crate::shared::meaning::Meaning;
use crate::shared::parts::TableKey;
use crate::shared::seats::{DeskSeat, WindowSeat, desk_seats, window_seats};
use crate::shared::{Closed, Made, PartSeat, SharedDesk, SharedWindow};
use crate::{Fits, OutOfMemory};
use atomic_table::Table;
use std::alloc::Global;
use std::snapshot::Snapshot;

/// A pending table that threads share. Whoever has a seat of it works at a desk or a window.
#[derive(Drop)]
pub struct SharedTable<R: Fits> {
    table: Made<R>,
    slots: u32,
    ghost counts: { (table.shared.table_id.words ≡ 2 * slots + 1) × (table.shared.table_id.slots ≡ slots) },
    ghost sized: { (table.shared.key.slots ≡ slots) × (0 < slots) },
}

impl<R: Fits> SharedTable<R> {
    ghost use Rattle.pending_table.specs.Closing.{IsClosed, ended_by, opened_by};
    ghost use Rattle.pending_table.specs.DeskLogs.{blank_log};
    ghost use Rattle.pending_table.specs.Sites.{Site};
    ghost use Rattle.pending_table.specs.TableSeats.{IsDeskSeat, IsWindowSeat, desk_log, desk_site, log_of, number_of, site_at, window_log, window_log_of, window_number_of, window_site};
    ghost use Rattle.pending_table.specs.WindowLogs.{blank_window};

    /// A table of unused slots, with a seat for the desk of each slot, in order, and one for each window:
    /// the reader's, the writer's and the scanner's. It keeps of its key what contracts see, and nothing else.
    pub fn new(
        alloc: Global,
        key: &R::Key,
        slots: u32,
    ) -> Result<(SharedTable<R>, Vec<DeskSeat<R>>, Vec<WindowSeat<R>>), OutOfMemory>
        requires { 0 < slots }
        ensures site { IfOk result (λ made. ((site_at made.0 0).key ≡ key.now) × ((site_at made.0 0).slots ≡ slots)) }
        ensures counts { IfOk result (λ made. (length made.1.items ≡ slots) × (length made.2.items ≡ 3)) }
        ensures desks { IfOk result (λ made. EachAt (λ slot seat. IsDeskSeat (site_at made.0 slot) seat × (log_of seat ≡ blank_log)) made.1.items) }
        ensures windows { IfOk result (λ made. EachAt (λ number seat. IsWindowSeat (site_at made.0 number) seat × (window_log_of seat ≡ blank_window)) made.2.items) }
    {
        // The seats' memory comes first: a table can't be let go where its replies can't.
        let desks = Vec::with_capacity(alloc, slots as usize)?;
        let windows = Vec::with_capacity(alloc, 3)?;
        let (table, mut whole) = lay_out(alloc, key, slots)?;
        let desks = desk_seats(&table.shared, &mut whole, slots, desks);
        let windows = window_seats(&table.shared, &mut whole, windows);
        Ok((SharedTable { table, slots }, desks, windows))
    }

    /// The desk that has this seat.
    pub fn desk(&self, seat: DeskSeat<R>) -> SharedDesk<'_, R>
        requires own { IsDeskSeat (site_at self.now (number_of seat)) seat }
        ensures site { desk_site result ≡ site_at self.now (number_of seat) }
        ensures log { desk_log result ≡ log_of seat }
    {
        let DeskSeat {
            seat,
            slot,
            last,
            opened,
        } = seat;
        SharedDesk {
            words: &self.table.shared,
            seat,
            slots: self.slots,
            slot,
            last,
            opened,
        }
    }

    /// The window that has this seat.
    pub fn window(&self, seat: WindowSeat<R>) -> SharedWindow<'_, R>
        requires own { IsWindowSeat (site_at self.now (window_number_of seat)) seat }
        ensures site { window_site result ≡ site_at self.now (window_number_of seat) }
        ensures log { window_log result ≡ window_log_of seat }
    {
        let WindowSeat { seat } = seat;
        SharedWindow {
            words: &self.table.shared,
            seat,
            slots: self.slots,
        }
    }

    /// Ends the table, once nobody works there. It takes the seats of all desks in the order of their
    /// numbers, each of a desk that is free, and then those of the three windows, in order too.
    pub fn close(self, desks: Vec<DeskSeat<R>>, windows: Vec<WindowSeat<R>>) -> Closed
        requires desks { (length desks.items ≡ (site_at self 0).slots) × EachAt (λ slot seat. IsDeskSeat (site_at self slot) seat × ((log_of seat).is_open ≡ false)) desks.items }
        requires windows { (length windows.items ≡ 3) × EachAt (λ number seat. IsWindowSeat (site_at self number) seat) windows.items }
        ensures opened { result.opened ≡ opened_by (map log_of desks.items) }
        ensures settled { result.settled ≡ ended_by (map log_of desks.items) }
        ensures same { result.settled ≡ result.opened }
        ensures records { IsClosed R.fits (site_at self 0).key (map log_of desks.items) (map window_log_of windows.items) }
    {
        let SharedTable { table, slots } = self;
        close(table, slots, desks, windows)
    }
}

/// A table of words that are all 0, without a value, and the seat that knows all of it.
fn lay_out<R: Meaning>(
    alloc: Global,
    key: &R::Key,
    slots: u32,
) -> Result<(Made<R>, PartSeat<R>), OutOfMemory>
    requires { 0 < slots }
    ensures counts { IfOk result (λ made. (made.0.shared.table_id.words ≡ 2 * slots + 1) × (made.0.shared.table_id.slots ≡ slots)) }
    ensures key { IfOk result (λ made. (made.0.shared.key.key.value ≡ key.now) × (made.0.shared.key.slots ≡ slots)) }
    ensures whole { IfOk result (λ made. (made.1.table_id ≡ made.0.shared.table_id) × (made.1.me ≡ (whole_view key.now slots, []))) }
{
    let words = vec![in alloc; 0u64; 2 * slots as usize + 1]?;
    let about = TableKey {
        key: Snapshot::of(key),
        slots,
    };
    Table::vacant(alloc, &words, slots as usize, &about)
}
