//! The steps of a window at the words of the table, one function each.
ghost use Rattle.std.specs.Prelude.{◌≡◌, ◌≢◌, ℕ, ◌+◌, ◌*◌, ◌<◌, ◌≤◌, ◌^◌, Some, None, [], ◌∷◌, ◌++◌};
ghost use mathlib.Core.Option.{none, some};
ghost use Rattle.atomic_table.specs.Table.{rest, step};
ghost use Rattle.pending_table.specs.Seats.{IsSeated, IsWindowOf};
ghost use Rattle.pending_table.specs.SharedPlays.{the_window, saw_one, saw_next, saw_due, claimed_one, claimed_due, put, set_lost};
ghost use Rattle.pending_table.specs.Taken.{IsOfferable};
ghost use Rattle.pending_table.specs.Words.{slot_of, word_of};
ghost use Rattle.pending_table.specs.declared.answers.Taken.TheVariants.{Timeout};
ghost use Rattle.pending_table.specs.declared.logs.Sight.TheVariants.{Word, Due};
ghost use Rattle.pending_table.specs.declared.word.SlotState.TheVariants as state;

use crate::Taken;
use crate::shared::meaning::Meaning;
use crate::shared::plays::{
    WindowClaims, WindowClaimsDue, WindowPuts, WindowSeesDue, WindowSeesNext, WindowSeesOne,
    WindowSetsLost,
};
use crate::shared::{PartSeat, Words};
use crate::word::{SlotState, to_word};

/// Loads the state of the one slot that a call looks at.
pub(crate) fn load_one<R: Meaning>(words: &Words<R>, seat: &mut PartSeat<R>, slot: u32) -> u64
    requires seated { IsSeated words.now.table_id words.now.key.slots seat.old.table_id }
    requires inside { slot < words.now.key.slots }
    requires window { IsWindowOf words.now.key.key.value seat.old.me.0 }
    ensures table { seat.new.table_id ≡ seat.old.table_id }
    ensures told { saw_one (step words.now.table_id.slots slot 0 0 none) seat.old.me result seat.new.me }
{
    words.load::<WindowSeesOne>(seat, slot as usize)
}

/// Loads the state of the next slot of a scan.
pub(crate) fn load_next<R: Meaning>(words: &Words<R>, seat: &mut PartSeat<R>, slot: u32) -> u64
    requires seated { IsSeated words.now.table_id words.now.key.slots seat.old.table_id }
    requires inside { slot < words.now.key.slots }
    requires window { IsWindowOf words.now.key.key.value seat.old.me.0 }
    ensures table { seat.new.table_id ≡ seat.old.table_id }
    ensures told { saw_next (step words.now.table_id.slots slot 0 0 none) seat.old.me result seat.new.me }
{
    words.load::<WindowSeesNext>(seat, slot as usize)
}

/// Loads the deadline of the slot that a scan saw last, with this id waiting.
pub(crate) fn load_deadline<R: Meaning>(
    words: &Words<R>,
    seat: &mut PartSeat<R>,
    slots: u32,
    slot: u32,
    id: u64,
) -> u64
    requires seated { IsSeated words.now.table_id words.now.key.slots seat.old.table_id }
    requires inside { (words.now.key.slots ≡ slots) × (slot < slots) }
    requires window { IsWindowOf words.now.key.key.value seat.old.me.0 }
    requires seen { (before : _) × ((the_window seat.old.me.0).log.sights ≡ before ++ Word slot (word_of (state.Waiting id)) ∷ []) }
    ensures table { seat.new.table_id ≡ seat.old.table_id }
    ensures told { saw_due (step words.now.table_id.slots (slots + slot) 0 0 none) seat.old.me result seat.new.me }
{
    words.load::<WindowSeesDue>(seat, slots as usize + slot as usize)
}

/// Claims an id for a value that was offered, where the id waits, and then has the slot's turn.
pub(crate) fn claim_offered<R: Meaning>(
    words: &Words<R>,
    seat: &mut PartSeat<R>,
    slot: u32,
    id: u64,
    given: &Option<Taken<R>>,
) -> u64
    requires seated { IsSeated words.now.table_id words.now.key.slots seat.old.table_id }
    requires inside { (slot < words.now.key.slots) × (id < 2 ^ 60) }
    requires window { IsWindowOf words.now.key.key.value seat.old.me.0 }
    requires idle { (the_window seat.old.me.0).giving ≡ None }
    requires fits { (offered : _) × (given.now ≡ Some offered) × IsOfferable R.fits words.now.key.key.value id offered }
    ensures table { seat.new.table_id ≡ seat.old.table_id }
    ensures told { claimed_one (step words.now.table_id.slots slot (word_of (state.Waiting id)) (word_of (state.Claimed id)) (some given.now)) seat.old.me result seat.new.me }
{
    let waiting = to_word(SlotState::Waiting { id });
    let claimed = to_word(SlotState::Claimed { id });
    words.compare_exchange_with::<WindowClaims>(seat, slot as usize, waiting, claimed, given)
}

/// Claims an id that was seen last and is due, where it waits still, and then has the slot's turn.
pub(crate) fn claim_due<R: Meaning>(
    words: &Words<R>,
    seat: &mut PartSeat<R>,
    slot: u32,
    id: u64,
    given: &Option<Taken<R>>,
) -> u64
    requires seated { IsSeated words.now.table_id words.now.key.slots seat.old.table_id }
    requires slots { words.now.table_id.slots ≡ words.now.key.slots }
    requires inside { (slot < words.now.key.slots) × (id < 2 ^ 60) }
    requires window { IsWindowOf words.now.key.key.value seat.old.me.0 }
    requires idle { (the_window seat.old.me.0).giving ≡ None }
    requires due { (deadline now : ℕ) × (given.now ≡ Some (Timeout deadline now)) × (deadline ≤ now)
        × ((before : _) × ((the_window seat.old.me.0).log.sights ≡ before ++ Due slot id deadline ∷ [])) }
    ensures table { seat.new.table_id ≡ seat.old.table_id }
    ensures told { claimed_due (step words.now.table_id.slots slot (word_of (state.Waiting id)) (word_of (state.Claimed id)) (some given.now)) seat.old.me result seat.new.me }
{
    let waiting = to_word(SlotState::Waiting { id });
    let claimed = to_word(SlotState::Claimed { id });
    words.compare_exchange_with::<WindowClaimsDue>(seat, slot as usize, waiting, claimed, given)
}

/// Stores done, after the value was put into the slot.
pub(crate) fn store_done<R: Meaning>(words: &Words<R>, seat: &mut PartSeat<R>, slot: u32, id: u64)
    requires seated { IsSeated words.now.table_id words.now.key.slots seat.old.table_id }
    requires inside { (slot < words.now.key.slots) × (id < 2 ^ 60) × (slot_of words.now.key.slots id ≡ slot) }
    requires window { IsWindowOf words.now.key.key.value seat.old.me.0 }
    requires put { (given : _) × ((the_window seat.old.me.0).giving ≡ Some (id, given)) × (seat.old.me.1 ≡ (slot, Some given) ∷ rest seat.old.me.1) }
    ensures table { seat.new.table_id ≡ seat.old.table_id }
    ensures told { put (step words.now.table_id.slots slot (word_of (state.Done id)) 0 none) seat.old.me (word_of (state.Done id)) seat.new.me }
{
    let done = to_word(SlotState::Done { id });
    words.store::<WindowPuts>(seat, slot as usize, done);
}

/// Sets the lost word where it is 0.
pub(crate) fn set_number<R: Meaning>(
    words: &Words<R>,
    seat: &mut PartSeat<R>,
    slots: u32,
    number: u64,
) -> u64
    requires seated { IsSeated words.now.table_id words.now.key.slots seat.old.table_id }
    requires slots { words.now.key.slots ≡ slots }
    requires window { IsWindowOf words.now.key.key.value seat.old.me.0 }
    requires number { number ≢ 0 }
    ensures table { seat.new.table_id ≡ seat.old.table_id }
    ensures told { set_lost (step words.now.table_id.slots (2 * slots) 0 number none) seat.old.me result seat.new.me }
{
    words.compare_exchange::<WindowSetsLost>(seat, 2 * slots as usize, 0, number)
}
