//! All seats of a table are gathered into one, and then its memory is given back.
ghost use Rattle.std.specs.Prelude.{◌≡◌, ℕ, ◌+◌, ◌*◌, ◌<◌, ◌≤◌, ◌^◌, None, [], false, length, map};
ghost use mathlib.Core.Option.{some};
ghost use lib.ListN.{get_elem?};
ghost use Rattle.std.specs.Mem.Slots.{IsFull, slots_items, slots_len};
ghost use Rattle.pending_table.specs.Closing.{IsClosed, ended_by, opened_by};
ghost use Rattle.pending_table.specs.Gathering.{AreDesksOf, AreWindowsOf, counted, desks_of, windows_of};
ghost use Rattle.pending_table.specs.Elements.{EachAt};
ghost use Rattle.pending_table.specs.SharedViews.{gathered};
ghost use Rattle.pending_table.specs.Sites.{shared_site};
ghost use Rattle.pending_table.specs.TableSeats.{IsDeskSeat, IsWindowSeat, log_of, window_log_of};

use crate::Taken;
use crate::shared::meaning::Meaning;
use crate::shared::plays::Gathers;
use crate::shared::seats::{DeskSeat, WindowSeat};
use crate::shared::{Closed, Made, PartSeat, Words};
use atomic_table::Closed as Emptied;
use std::alloc::Global;

/// Joins the parts of a seat behind those of another.
fn join<R: Meaning>(words: &Words<R>, first: &mut PartSeat<R>, others: PartSeat<R>)
    requires own { (first.old.table_id ≡ words.now.table_id) × (others.table_id ≡ words.now.table_id) × (0 < words.now.table_id.words) }
    requires bare { others.me.1 ≡ [] }
    ensures table { first.new.table_id ≡ first.old.table_id }
    ensures all { first.new.me ≡ (gathered first.old.me.0 others.me.0, first.old.me.1) }
{
    words.join_seat::<Gathers>(first, others);
}

/// The seat that knows all desks, and how many ids they opened.
pub(crate) fn gather_desks<R: Meaning>(
    words: &Words<R>,
    mut seats: Vec<DeskSeat<R>>,
) -> (PartSeat<R>, u128)
    requires table { 0 < words.now.table_id.words }
    requires some { (0 < length seats.items) × (length seats.items < 2 ^ 32) }
    requires own { AreDesksOf words.now.table_id seats.items }
    ensures table { (result.0.table_id ≡ words.now.table_id) × (result.0.me.1 ≡ []) }
    ensures view { (result.0.me.0.desks ≡ desks_of seats.items) × (result.0.me.0.windows ≡ []) }
    ensures opened { result.1 ≡ counted seats.items }
{
    let Some(last) = seats.pop() else {
        unreachable!()
    };
    let DeskSeat {
        seat: mut whole,
        slot: _,
        last: _,
        opened,
    } = last;
    let mut count = u128::from(opened);
    while let Some(next) = seats.pop() {
        let DeskSeat {
            seat: mut first,
            slot: _,
            last: _,
            opened,
        } = next;
        join(words, &mut first, whole);
        whole = first;
        count += u128::from(opened);
    }
    seats.destroy_empty();
    (whole, count)
}

/// The same seat, once it knows all windows too.
pub(crate) fn gather_windows<R: Meaning>(
    words: &Words<R>,
    mut whole: PartSeat<R>,
    mut seats: Vec<WindowSeat<R>>,
) -> PartSeat<R>
    requires table { (0 < words.now.table_id.words) × (whole.table_id ≡ words.now.table_id) × (whole.me.1 ≡ []) }
    requires desks { whole.me.0.windows ≡ [] }
    requires own { AreWindowsOf words.now.table_id seats.items }
    ensures table { (result.table_id ≡ words.now.table_id) × (result.me.1 ≡ []) }
    ensures view { (result.me.0.desks ≡ whole.me.0.desks) × (result.me.0.windows ≡ windows_of seats.items) }
{
    while let Some(next) = seats.pop() {
        let WindowSeat { seat: mut first } = next;
        join(words, &mut first, whole);
        whole = first;
    }
    seats.destroy_empty();
    whole
}

/// Gives the memory of a table back in which nothing lies.
pub(crate) fn let_go<R>(mut rest: Emptied<Option<Taken<R>>, Global>)
    requires full { IsFull rest.slots }
    requires empty { (k : ℕ) → k < slots_len rest.slots → get_elem? (slots_items rest.slots) k ≡ some None }
{
    let mut slot = 0;
    while slot < rest.slot_count() {
        let was = rest.take(slot);
        let None = was else { unreachable!() };
        slot += 1;
    }
    rest.free();
}

/// Ends a table, with its words and slots.
pub(crate) fn close<R: Meaning>(
    table: Made<R>,
    slots: u32,
    desks: Vec<DeskSeat<R>>,
    windows: Vec<WindowSeat<R>>,
) -> Closed
    requires counts { (table.shared.table_id.words ≡ 2 * slots + 1) × (table.shared.table_id.slots ≡ slots) }
    requires sized { (table.shared.key.slots ≡ slots) × (0 < slots) }
    requires desks { (length desks.items ≡ slots) × EachAt (λ slot seat. IsDeskSeat (shared_site table.shared.table_id table.shared.key.key.value slots slot) seat × ((log_of seat).is_open ≡ false)) desks.items }
    requires windows { (length windows.items ≡ 3) × EachAt (λ number seat. IsWindowSeat (shared_site table.shared.table_id table.shared.key.key.value slots number) seat) windows.items }
    ensures opened { (result.opened ≡ opened_by (map log_of desks.items)) × (result.settled ≡ ended_by (map log_of desks.items)) }
    ensures same { result.settled ≡ result.opened }
    ensures records { IsClosed R.fits table.shared.key.key.value (map log_of desks.items) (map window_log_of windows.items) }
{
    let (whole, opened) = gather_desks(&table.shared, desks);
    let whole = gather_windows(&table.shared, whole, windows);
    let rest = table.close_with(whole);
    let_go(rest);
    Closed::of(opened as u64)
}
