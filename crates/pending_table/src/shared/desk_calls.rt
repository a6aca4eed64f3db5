//! What a desk does at its slot, as calls of single steps.
ghost use Rattle.std.specs.Prelude.{◌≡◌, ◌≢◌, ℕ, ◌+◌, ◌*◌, ◌<◌, ◌≤◌, ◌^◌, true, false, Some, None, ◌∷◌};
ghost use Rattle.atomic_table.specs.Table.{rest};
ghost use Rattle.pending_table.specs.DeskAnswers.{Leaves, Looks};
ghost use Rattle.pending_table.specs.DeskLogs.{opened_log};
ghost use Rattle.pending_table.specs.Seats.{IsDeskOf, IsSeated};
ghost use Rattle.pending_table.specs.SharedPlays.{the_desk, on_desk, empties};
ghost use Rattle.pending_table.specs.Words.{slot_of};

use crate::shared::desk_steps::{
    leave_waiting, load_lost, load_state, lose_waiting, store_deadline, store_free, store_waiting,
};
use crate::shared::meaning::Meaning;
use crate::shared::{PartSeat, Words};
use crate::word::{SlotState, to_word};
use crate::{Abandoned, Look, Taken};

/// Opens an id: first its deadline is stored, then it is shown as waiting.
pub(crate) fn open_id<R: Meaning>(
    words: &Words<R>,
    seat: &mut PartSeat<R>,
    slots: u32,
    slot: u32,
    id: u64,
    deadline: u64,
)
    requires seated { IsSeated words.now.table_id words.now.key.slots seat.old.table_id }
    requires inside { (words.now.key.slots ≡ slots) × (slot < slots) }
    requires desk { IsDeskOf words.now.key.key.value slot seat.old.me.0 }
    requires free { (the_desk seat.old.me.0).log.is_open ≡ false }
    requires above { (the_desk seat.old.me.0).log.last ≤ id }
    requires small { id < 2 ^ 60 }
    requires place { slot_of words.now.key.slots id ≡ slot }
    ensures opened { (the_desk seat.new.me.0).log ≡ opened_log id deadline (the_desk seat.old.me.0).log }
    ensures desk { IsDeskOf words.now.key.key.value slot seat.new.me.0 }
    ensures same { (seat.new.table_id ≡ seat.old.table_id) × (seat.new.me.1 ≡ seat.old.me.1)
        × ((the_desk seat.new.me.0).taken ≡ (the_desk seat.old.me.0).taken) }
{
    store_deadline(words, seat, slots, slot, deadline);
    store_waiting(words, seat, slot, id);
}

/// Takes the value out of the slot and shows the slot as free.
pub(crate) fn take_value<R: Meaning>(
    words: &Words<R>,
    seat: &mut PartSeat<R>,
    slot: u32,
    id: u64,
) -> Taken<R>
    requires seated { IsSeated words.now.table_id words.now.key.slots seat.old.table_id }
    requires inside { slot < words.now.key.slots }
    requires desk { IsDeskOf words.now.key.key.value slot seat.old.me.0 }
    requires last { ((the_desk seat.old.me.0).log.last ≡ id + 1) × (id < 2 ^ 60) }
    requires taken { (the_desk seat.old.me.0).taken ≢ None }
    requires holds { seat.old.me.1 ≡ (slot, (the_desk seat.old.me.0).taken) ∷ rest seat.old.me.1 }
    ensures table { seat.new.table_id ≡ seat.old.table_id }
    ensures given { (the_desk seat.old.me.0).taken ≡ Some result }
    ensures me { seat.new.me ≡ (on_desk empties seat.old.me.0, rest seat.old.me.1) }
{
    let was = words.exchange(seat, slot as usize, None);
    store_free(words, seat, slot, id);
    match was {
        Some(given) => given,
        None => unreachable!(),
    }
}

/// Looks whether the open id was resolved, or its link lost.
pub(crate) fn look_at<R: Meaning>(
    words: &Words<R>,
    seat: &mut PartSeat<R>,
    slots: u32,
    slot: u32,
    id: u64,
) -> Look<R>
    requires seated { IsSeated words.now.table_id words.now.key.slots seat.old.table_id }
    requires inside { (words.now.key.slots ≡ slots) × (slot < slots) }
    requires desk { IsDeskOf words.now.key.key.value slot seat.old.me.0 }
    requires last { ((the_desk seat.old.me.0).log.last ≡ id + 1) × (id < 2 ^ 60) }
    requires open { ((the_desk seat.old.me.0).log.is_open ≡ true) × ((the_desk seat.old.me.0).taken ≡ None) }
    ensures answer { Looks R.fits words.now.key.key.value (the_desk seat.old.me.0).log result (the_desk seat.new.me.0).log }
    ensures desk { IsDeskOf words.now.key.key.value slot seat.new.me.0 }
    ensures same { (seat.new.table_id ≡ seat.old.table_id) × (seat.new.me.1 ≡ seat.old.me.1)
        × ((the_desk seat.new.me.0).taken ≡ None) }
{
    let claimed = to_word(SlotState::Claimed { id });
    let done = to_word(SlotState::Done { id });
    let found = load_state(words, seat, slot);
    if found == done {
        return Look::Ready(take_value(words, seat, slot, id));
    }
    if found == claimed {
        return Look::Pending;
    }
    let number = load_lost(words, seat, slots);
    if number == 0 {
        return Look::Pending;
    }
    let met = lose_waiting(words, seat, slot, id);
    if met == done {
        return Look::Ready(take_value(words, seat, slot, id));
    }
    if met == claimed {
        return Look::Pending;
    }
    Look::Lost { number }
}

/// Gives the open id up, where it waits.
pub(crate) fn abandon_id<R: Meaning>(
    words: &Words<R>,
    seat: &mut PartSeat<R>,
    slot: u32,
    id: u64,
) -> Abandoned
    requires seated { IsSeated words.now.table_id words.now.key.slots seat.old.table_id }
    requires inside { slot < words.now.key.slots }
    requires desk { IsDeskOf words.now.key.key.value slot seat.old.me.0 }
    requires last { ((the_desk seat.old.me.0).log.last ≡ id + 1) × (id < 2 ^ 60) }
    requires open { ((the_desk seat.old.me.0).log.is_open ≡ true) × ((the_desk seat.old.me.0).taken ≡ None) }
    ensures answer { Leaves (the_desk seat.old.me.0).log result (the_desk seat.new.me.0).log }
    ensures desk { IsDeskOf words.now.key.key.value slot seat.new.me.0 }
    ensures same { (seat.new.table_id ≡ seat.old.table_id) × (seat.new.me.1 ≡ seat.old.me.1)
        × ((the_desk seat.new.me.0).taken ≡ None) }
{
    let waiting = to_word(SlotState::Waiting { id });
    let found = leave_waiting(words, seat, slot, id);
    if found == waiting {
        return Abandoned::Free;
    }
    Abandoned::Claimed
}
