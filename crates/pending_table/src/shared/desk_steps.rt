//! The steps of a desk at its slot's words, one function each.
ghost use Rattle.std.specs.Prelude.{◌≡◌, ◌≢◌, ℕ, ◌+◌, ◌*◌, ◌<◌, ◌≤◌, ◌^◌, true, false, None, ◌∷◌};
ghost use mathlib.Core.Option.{none};
ghost use Rattle.atomic_table.specs.Table.{rest, step};
ghost use Rattle.pending_table.specs.Seats.{IsDeskOf, IsSeated};
ghost use Rattle.pending_table.specs.SharedPlays.{the_desk, dated, opened, looked, emptied, asked_lost, lost_id, left_id};
ghost use Rattle.pending_table.specs.Words.{slot_of, word_of};
ghost use Rattle.pending_table.specs.declared.word.SlotState.TheVariants as state;

use crate::shared::meaning::Meaning;
use crate::shared::plays::{
    DeskAsksLost, DeskDates, DeskEmpties, DeskLeavesId, DeskLooks, DeskLosesId, DeskOpens,
};
use crate::shared::{PartSeat, Words};
use crate::word::{SlotState, to_word};

/// Stores the deadline of the next id.
pub(crate) fn store_deadline<R: Meaning>(
    words: &Words<R>,
    seat: &mut PartSeat<R>,
    slots: u32,
    slot: u32,
    deadline: u64,
)
    requires seated { IsSeated words.now.table_id words.now.key.slots seat.old.table_id }
    requires inside { (words.now.key.slots ≡ slots) × (slot < slots) }
    requires desk { IsDeskOf words.now.key.key.value slot seat.old.me.0 }
    requires free { (the_desk seat.old.me.0).log.is_open ≡ false }
    ensures table { seat.new.table_id ≡ seat.old.table_id }
    ensures told { dated (step words.now.table_id.slots (slots + slot) deadline 0 none) seat.old.me deadline seat.new.me }
{
    words.store::<DeskDates>(seat, slots as usize + slot as usize, deadline);
}

/// Shows the next id as waiting.
pub(crate) fn store_waiting<R: Meaning>(
    words: &Words<R>,
    seat: &mut PartSeat<R>,
    slot: u32,
    id: u64,
)
    requires seated { IsSeated words.now.table_id words.now.key.slots seat.old.table_id }
    requires inside { slot < words.now.key.slots }
    requires desk { IsDeskOf words.now.key.key.value slot seat.old.me.0 }
    requires free { (the_desk seat.old.me.0).log.is_open ≡ false }
    requires above { (the_desk seat.old.me.0).log.last ≤ id }
    requires small { id < 2 ^ 60 }
    requires place { slot_of words.now.key.slots id ≡ slot }
    ensures table { seat.new.table_id ≡ seat.old.table_id }
    ensures told { opened (step words.now.table_id.slots slot (word_of (state.Waiting id)) 0 none) seat.old.me (word_of (state.Waiting id)) seat.new.me }
{
    let waiting = to_word(SlotState::Waiting { id });
    words.store::<DeskOpens>(seat, slot as usize, waiting);
}

/// Loads the state of the open id, and has the slot's turn where that is done.
pub(crate) fn load_state<R: Meaning>(words: &Words<R>, seat: &mut PartSeat<R>, slot: u32) -> u64
    requires seated { IsSeated words.now.table_id words.now.key.slots seat.old.table_id }
    requires inside { slot < words.now.key.slots }
    requires desk { IsDeskOf words.now.key.key.value slot seat.old.me.0 }
    requires open { ((the_desk seat.old.me.0).log.is_open ≡ true) × ((the_desk seat.old.me.0).taken ≡ None) }
    ensures table { seat.new.table_id ≡ seat.old.table_id }
    ensures told { looked R.fits (step words.now.table_id.slots slot 0 0 none) seat.old.me result seat.new.me }
{
    words.load::<DeskLooks>(seat, slot as usize)
}

/// Stores free, after the value was taken out of the slot.
pub(crate) fn store_free<R: Meaning>(words: &Words<R>, seat: &mut PartSeat<R>, slot: u32, id: u64)
    requires seated { IsSeated words.now.table_id words.now.key.slots seat.old.table_id }
    requires inside { slot < words.now.key.slots }
    requires desk { IsDeskOf words.now.key.key.value slot seat.old.me.0 }
    requires last { ((the_desk seat.old.me.0).log.last ≡ id + 1) × (id < 2 ^ 60) }
    requires taken { (the_desk seat.old.me.0).taken ≢ None }
    requires emptied { seat.old.me.1 ≡ (slot, None) ∷ rest seat.old.me.1 }
    ensures table { seat.new.table_id ≡ seat.old.table_id }
    ensures told { emptied (step words.now.table_id.slots slot (word_of (state.Free id)) 0 none) seat.old.me (word_of (state.Free id)) seat.new.me }
{
    let free = to_word(SlotState::Free { id });
    words.store::<DeskEmpties>(seat, slot as usize, free);
}

/// Loads the lost word.
pub(crate) fn load_lost<R: Meaning>(words: &Words<R>, seat: &mut PartSeat<R>, slots: u32) -> u64
    requires seated { IsSeated words.now.table_id words.now.key.slots seat.old.table_id }
    requires slots { words.now.key.slots ≡ slots }
    requires desk { IsDeskOf words.now.key.key.value (the_desk seat.old.me.0).slot seat.old.me.0 }
    ensures table { seat.new.table_id ≡ seat.old.table_id }
    ensures told { asked_lost (step words.now.table_id.slots (2 * slots) 0 0 none) seat.old.me result seat.new.me }
{
    words.load::<DeskAsksLost>(seat, 2 * slots as usize)
}

/// Frees the id as lost where it waits, and has the slot's turn where it is done.
pub(crate) fn lose_waiting<R: Meaning>(
    words: &Words<R>,
    seat: &mut PartSeat<R>,
    slot: u32,
    id: u64,
) -> u64
    requires seated { IsSeated words.now.table_id words.now.key.slots seat.old.table_id }
    requires inside { slot < words.now.key.slots }
    requires desk { IsDeskOf words.now.key.key.value slot seat.old.me.0 }
    requires last { ((the_desk seat.old.me.0).log.last ≡ id + 1) × (id < 2 ^ 60) }
    requires open { ((the_desk seat.old.me.0).log.is_open ≡ true) × ((the_desk seat.old.me.0).taken ≡ None) }
    requires lost { (the_desk seat.old.me.0).log.reads.lost ≢ 0 }
    ensures table { seat.new.table_id ≡ seat.old.table_id }
    ensures told { lost_id R.fits (step words.now.table_id.slots slot (word_of (state.Waiting id)) (word_of (state.Free id)) none) seat.old.me result seat.new.me }
{
    let waiting = to_word(SlotState::Waiting { id });
    let free = to_word(SlotState::Free { id });
    words.compare_exchange::<DeskLosesId>(seat, slot as usize, waiting, free)
}

/// Frees the id where it waits.
pub(crate) fn leave_waiting<R: Meaning>(
    words: &Words<R>,
    seat: &mut PartSeat<R>,
    slot: u32,
    id: u64,
) -> u64
    requires seated { IsSeated words.now.table_id words.now.key.slots seat.old.table_id }
    requires inside { slot < words.now.key.slots }
    requires desk { IsDeskOf words.now.key.key.value slot seat.old.me.0 }
    requires last { ((the_desk seat.old.me.0).log.last ≡ id + 1) × (id < 2 ^ 60) }
    requires open { ((the_desk seat.old.me.0).log.is_open ≡ true) × ((the_desk seat.old.me.0).taken ≡ None) }
    ensures table { seat.new.table_id ≡ seat.old.table_id }
    ensures told { left_id (step words.now.table_id.slots slot (word_of (state.Waiting id)) (word_of (state.Free id)) none) seat.old.me result seat.new.me }
{
    let waiting = to_word(SlotState::Waiting { id });
    let free = to_word(SlotState::Free { id });
    words.compare_exchange::<DeskLeavesId>(seat, slot as usize, waiting, free)
}
