//! The seats of a new table, which its threads take with them.
ghost use Rattle.std.specs.Prelude.{◌≡◌, ℕ, ◌+◌, ◌*◌, ◌<◌, ◌≤◌, ◌^◌, true, Some, None, [], length, vec_capacity};
ghost use Rattle.pending_table.specs.Cutting.{view_from, windows_from};
ghost use Rattle.pending_table.specs.Elements.{EachAt};
ghost use Rattle.pending_table.specs.Seats.{IsSeated, one_desk, one_window};
ghost use Rattle.pending_table.specs.SharedPlays.{the_desk, the_window};
ghost use Rattle.pending_table.specs.SharedViews.{blank_desk, blank_part};

use crate::shared::cutting::{cut_desk, cut_window};
use crate::shared::meaning::Meaning;
use crate::shared::{PartSeat, Words};

/// The seat of a desk, while no thread works at it.
#[derive(Drop)]
pub struct DeskSeat<R: Meaning> {
    pub(crate) seat: PartSeat<R>,
    pub(crate) slot: u32,
    /// One more than the last id that was opened, or 0 where none was.
    pub(crate) last: u64,
    /// How many ids were opened.
    pub(crate) opened: u64,
    ghost inside: { 2 * slot + 1 < seat.table_id.words },
    ghost alone: { (seat.me.0 ≡ one_desk seat.me.0.key (the_desk seat.me.0)) × ((the_desk seat.me.0).slot ≡ slot) },
    ghost bare: { seat.me.1 ≡ [] },
    ghost last_is: { ((the_desk seat.me.0).log.last ≡ last) × (last ≤ 2 ^ 60) },
    ghost counted: { (length (the_desk seat.me.0).log.opened ≡ opened) × (opened ≤ last) },
    ghost begun: { (the_desk seat.me.0).log.is_open ≡ true → 0 < last },
    ghost untaken: { (the_desk seat.me.0).taken ≡ None },
}

/// The seat of a window, while no thread works at it.
#[derive(Drop)]
pub struct WindowSeat<R: Meaning> {
    pub(crate) seat: PartSeat<R>,
    ghost alone: { seat.me.0 ≡ one_window seat.me.0.key (the_window seat.me.0) },
    ghost bare: { seat.me.1 ≡ [] },
    ghost idle: { (the_window seat.me.0).giving ≡ None },
}

/// A seat for the desk of each slot, in order, with the windows left over.
pub(crate) fn desk_seats<R: Meaning>(
    words: &Words<R>,
    whole: &mut PartSeat<R>,
    slots: u32,
    mut seats: Vec<DeskSeat<R>>,
) -> Vec<DeskSeat<R>>
    requires seated { IsSeated words.now.table_id words.now.key.slots whole.old.table_id }
    requires slots { words.now.key.slots ≡ slots }
    requires view { whole.old.me ≡ (view_from words.now.key.key.value slots 0, []) }
    requires room { (seats.items ≡ []) × (slots ≤ vec_capacity seats) }
    ensures whole { (whole.new.table_id ≡ whole.old.table_id) × (whole.new.me ≡ (windows_from words.now.key.key.value 0, [])) }
    ensures count { length result.items ≡ slots }
    ensures each { EachAt (λ slot seat. (seat.slot ≡ slot) × (seat.seat.table_id ≡ whole.old.table_id) × (seat.seat.me ≡ (one_desk (Some words.now.key.key.value) (blank_desk slot), []))) result.items }
{
    for slot in 0..slots {
        let seat = cut_desk(words, whole, slot);
        seats.push_reserved(DeskSeat {
            seat,
            slot,
            last: 0,
            opened: 0,
        });
    }
    seats
}

/// A seat for each window: the reader's, the writer's and the scanner's.
pub(crate) fn window_seats<R: Meaning>(
    words: &Words<R>,
    whole: &mut PartSeat<R>,
    mut seats: Vec<WindowSeat<R>>,
) -> Vec<WindowSeat<R>>
    requires seated { IsSeated words.now.table_id words.now.key.slots whole.old.table_id }
    requires view { whole.old.me ≡ (windows_from words.now.key.key.value 0, []) }
    requires room { (seats.items ≡ []) × (3 ≤ vec_capacity seats) }
    ensures count { length result.items ≡ 3 }
    ensures each { EachAt (λ number seat. (seat.seat.table_id ≡ whole.old.table_id) × (seat.seat.me ≡ (one_window (Some words.now.key.key.value) (blank_part number), []))) result.items }
{
    for number in 0..3 {
        let seat = cut_window(words, whole, number);
        seats.push_reserved(WindowSeat { seat });
    }
    seats
}
