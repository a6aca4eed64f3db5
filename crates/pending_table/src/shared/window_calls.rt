//! What a window does at the table, as calls of single steps.
ghost use Rattle.std.specs.Prelude.{◌≡◌, ◌≢◌, ℕ, ◌<◌, None};
ghost use Rattle.pending_table.specs.Seats.{IsSeated, IsWindowOf};
ghost use Rattle.pending_table.specs.SharedPlays.{the_window};
ghost use Rattle.pending_table.specs.Taken.{IsOfferable};
ghost use Rattle.pending_table.specs.Scans.{IsScannedAt};
ghost use Rattle.pending_table.specs.WindowAnswers.{Expires, Loses, Offers};

use crate::shared::meaning::Meaning;
use crate::shared::window_steps::{
    claim_due, claim_offered, load_deadline, load_next, load_one, set_number, store_done,
};
use crate::shared::{PartSeat, Words};
use crate::word::{SlotState, from_word, to_word};
use crate::{Offered, Taken};

/// Marks the link as lost, where it isn't marked yet.
pub(crate) fn lose<R: Meaning>(words: &Words<R>, seat: &mut PartSeat<R>, slots: u32, number: u64)
    requires seated { IsSeated words.now.table_id words.now.key.slots seat.old.table_id }
    requires slots { words.now.key.slots ≡ slots }
    requires window { IsWindowOf words.now.key.key.value seat.old.me.0 }
    requires number { number ≢ 0 }
    ensures lost { Loses number (the_window seat.old.me.0).log (the_window seat.new.me.0).log }
    ensures window { IsWindowOf words.now.key.key.value seat.new.me.0 }
    ensures same { (seat.new.table_id ≡ seat.old.table_id) × (seat.new.me.1 ≡ seat.old.me.1)
        × ((the_window seat.new.me.0).giving ≡ (the_window seat.old.me.0).giving) }
    ensures number { (the_window seat.new.me.0).number ≡ (the_window seat.old.me.0).number }
{
    set_number(words, seat, slots, number);
}

/// Resolves an id with a value, where it waits. No word shows an id of 2 ^ 60 or more.
pub(crate) fn offer<R: Meaning>(
    words: &Words<R>,
    seat: &mut PartSeat<R>,
    slots: u32,
    id: u64,
    given: Taken<R>,
) -> Offered<R>
    requires seated { IsSeated words.now.table_id words.now.key.slots seat.old.table_id }
    requires slots { (words.now.key.slots ≡ slots) × (0 < slots) }
    requires window { IsWindowOf words.now.key.key.value seat.old.me.0 }
    requires idle { (the_window seat.old.me.0).giving ≡ None }
    requires fits { IsOfferable R.fits words.now.key.key.value id given }
    ensures answer { Offers slots id given (the_window seat.old.me.0).log result (the_window seat.new.me.0).log }
    ensures window { IsWindowOf words.now.key.key.value seat.new.me.0 }
    ensures same { (seat.new.table_id ≡ seat.old.table_id) × (seat.new.me.1 ≡ seat.old.me.1)
        × ((the_window seat.new.me.0).giving ≡ None) }
    ensures number { (the_window seat.new.me.0).number ≡ (the_window seat.old.me.0).number }
{
    let slot = (id / 16 % u64::from(slots)) as u32;
    if id >= 1 << 60 {
        let seen = load_one(words, seat, slot);
        return Offered::Dropped { seen, given };
    }
    let waiting = to_word(SlotState::Waiting { id });
    let offered = Some(given);
    let found = claim_offered(words, seat, slot, id, &offered);
    if found == waiting {
        let was = words.exchange(seat, slot as usize, offered);
        let None = was else { unreachable!() };
        store_done(words, seat, slot, id);
        return Offered::Taken;
    }
    match offered {
        Some(given) => Offered::Dropped { seen: found, given },
        None => unreachable!(),
    }
}

/// Checks one slot of a scan, and resolves its id where that waits and its deadline has come.
fn scan_slot<R: Meaning>(words: &Words<R>, seat: &mut PartSeat<R>, slots: u32, slot: u32, now: u64)
    requires seated { IsSeated words.now.table_id words.now.key.slots seat.old.table_id }
    requires slots { (words.now.key.slots ≡ slots) × (words.now.table_id.slots ≡ slots) × (slot < slots) }
    requires window { IsWindowOf words.now.key.key.value seat.old.me.0 }
    requires idle { (the_window seat.old.me.0).giving ≡ None }
    ensures scanned { IsScannedAt now slot (the_window seat.old.me.0).log (the_window seat.new.me.0).log }
    ensures window { IsWindowOf words.now.key.key.value seat.new.me.0 }
    ensures same { (seat.new.table_id ≡ seat.old.table_id) × (seat.new.me.1 ≡ seat.old.me.1)
        × ((the_window seat.new.me.0).giving ≡ None) }
    ensures number { (the_window seat.new.me.0).number ≡ (the_window seat.old.me.0).number }
{
    let word = load_next(words, seat, slot);
    let SlotState::Waiting { id } = from_word(word) else {
        return;
    };
    let deadline = load_deadline(words, seat, slots, slot, id);
    if now < deadline {
        return;
    }
    let given = Some(Taken::Timeout {
        deadline,
        moment: now,
    });
    let found = claim_due(words, seat, slot, id, &given);
    if found == word {
        let was = words.exchange(seat, slot as usize, given);
        let None = was else { unreachable!() };
        store_done(words, seat, slot, id);
        return;
    }
    let Some(unused) = given else { unreachable!() };
    let Taken::Timeout { .. } = unused else {
        unreachable!()
    };
}

/// Resolves each waiting id whose deadline has come.
pub(crate) fn expire<R: Meaning>(words: &Words<R>, seat: &mut PartSeat<R>, slots: u32, now: u64)
    requires seated { IsSeated words.now.table_id words.now.key.slots seat.old.table_id }
    requires slots { (words.now.key.slots ≡ slots) × (words.now.table_id.slots ≡ slots) × (0 < slots) }
    requires window { IsWindowOf words.now.key.key.value seat.old.me.0 }
    requires idle { (the_window seat.old.me.0).giving ≡ None }
    ensures expired { Expires slots now (the_window seat.old.me.0).log (the_window seat.new.me.0).log }
    ensures window { IsWindowOf words.now.key.key.value seat.new.me.0 }
    ensures same { (seat.new.table_id ≡ seat.old.table_id) × (seat.new.me.1 ≡ seat.old.me.1)
        × ((the_window seat.new.me.0).giving ≡ None) }
    ensures number { (the_window seat.new.me.0).number ≡ (the_window seat.old.me.0).number }
{
    for slot in 0..slots {
        scan_slot(words, seat, slots, slot, now);
    }
}
