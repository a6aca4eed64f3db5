//! The window of a table of one thread.
ghost use Rattle.std.specs.Prelude.{◌≡◌, ◌≢◌, ℕ, ◌+◌, ◌*◌, ◌<◌, ◌≤◌, ◌^◌, ◌==◌, if◌then◌else◌, length, ⊤};

use crate::plain::PlainTable;
use crate::plain::steps::{Claims, Drops, Keeps, Scans, Sees, Sets};
use crate::word::{SlotState, to_word};
use crate::{Claim, Fits, Offered, Sight, Taken, Window};

/// The ids that one call has for its attempts.
const CALL_IDS: u64 = 16;

/// A window. It borrows its table.
#[derive(Drop)]
pub struct PlainWindow<'a, R: Fits> {
    pub(crate) table: &'a mut PlainTable<R>,
}

impl<'a, R: Fits> Window<R> for PlainWindow<'a, R> {
    ghost use Rattle.pending_table.specs.Beside.{Decides, KeepsDesks};
    ghost use Rattle.pending_table.specs.Sites.{lent_site};
    ghost use Rattle.pending_table.specs.Taken.{IsOfferable};
    ghost use Rattle.pending_table.specs.PlainTables.{all_beside, IsScanned, log_at, Resolves};
    ghost use Rattle.pending_table.specs.Words.{slot_of};
    ghost use Rattle.pending_table.specs.WindowAnswers.{Expires, Loses, Offers};

    ghost site = { λ w. lent_site w.table.ghost_name w.table.now.key.value (length w.table.now.slots.items) 0 };

    ghost log = { λ w. w.table.now.window.value };

    ghost beside = { λ w. all_beside w.table.now.slots.items w.table.now.lost w.table.now.window.value };

    fn offer(&mut self, id: u64, given: Taken<R>) -> Offered<R>
        requires fits { IsOfferable R.fits self.old.table.now.key.value id given }
        ensures same_table { self.new.table.ghost_name ≡ self.old.table.ghost_name }
        ensures desks { KeepsDesks (all_beside self.old.table.now.slots.items self.old.table.now.lost self.old.table.now.window.value)
            (all_beside self.new.table.now.slots.items self.new.table.now.lost self.new.table.now.window.value) }
        ensures same { (self.new.table.now.key ≡ self.old.table.now.key) × (self.new.table.now.lost ≡ self.old.table.now.lost)
            × (length self.new.table.now.slots.items ≡ length self.old.table.now.slots.items) }
        ensures answer { Offers (length self.old.table.now.slots.items) id given
            self.old.table.now.window.value result self.new.table.now.window.value }
        ensures decides { Decides (λ number. (result ≡ Offered.Taken) × (number ≡ slot_of (length self.old.table.now.slots.items) id))
            (all_beside self.old.table.now.slots.items self.old.table.now.lost self.old.table.now.window.value)
            (all_beside self.new.table.now.slots.items self.new.table.now.lost self.new.table.now.window.value) }
        ensures slots { Resolves id given result self.old.table.now.slots.items self.new.table.now.slots.items }
    {
        let table = &mut *self.table;
        let count = table.slots.len() as u64;
        let slot = id / CALL_IDS % count;
        let at = &mut table.slots[slot as usize];
        let state = at.held.state();
        if state != (SlotState::Waiting { id }) {
            let seen = at.word();
            table.window = table.window.extended::<(u64, u64), Drops>(&(slot, seen));
            return Offered::Dropped { seen, given };
        }
        let claim = Claim { id, given };
        table.window = table.window.extended::<Claim<R>, Claims>(&claim);
        let Claim { id: _, given } = claim;
        at.claim(id, given);
        Offered::Taken
    }

    fn expire(&mut self, now: u64)
        ensures same_table { self.new.table.ghost_name ≡ self.old.table.ghost_name }
        ensures desks { KeepsDesks (all_beside self.old.table.now.slots.items self.old.table.now.lost self.old.table.now.window.value)
            (all_beside self.new.table.now.slots.items self.new.table.now.lost self.new.table.now.window.value) }
        ensures same { (self.new.table.now.key ≡ self.old.table.now.key) × (self.new.table.now.lost ≡ self.old.table.now.lost)
            × (length self.new.table.now.slots.items ≡ length self.old.table.now.slots.items) }
        ensures expired { Expires (length self.old.table.now.slots.items) now
            self.old.table.now.window.value self.new.table.now.window.value }
        ensures decides { Decides (λ number. (log_at self.old.table.now.slots.items number).deadline ≤ now)
            (all_beside self.old.table.now.slots.items self.old.table.now.lost self.old.table.now.window.value)
            (all_beside self.new.table.now.slots.items self.new.table.now.lost self.new.table.now.window.value) }
        ensures slots { IsScanned now self.old.table.now.slots.items self.new.table.now.slots.items }
    {
        let table = &mut *self.table;
        table.window = table.window.extended::<(), Scans>(&());
        for slot in 0..table.slots.len() {
            let sight = table.slots[slot].expire(slot as u64, now);
            table.window = table.window.extended::<(Sight, u64), Sees>(&(sight, now));
        }
    }

    fn lose(&mut self, number: u64)
        requires number { number ≢ 0 }
        ensures same_table { self.new.table.ghost_name ≡ self.old.table.ghost_name }
        ensures desks { KeepsDesks (all_beside self.old.table.now.slots.items self.old.table.now.lost self.old.table.now.window.value)
            (all_beside self.new.table.now.slots.items self.new.table.now.lost self.new.table.now.window.value) }
        ensures same { (self.new.table.now.key ≡ self.old.table.now.key) × (self.new.table.now.slots ≡ self.old.table.now.slots) }
        ensures lost { Loses number self.old.table.now.window.value self.new.table.now.window.value }
        ensures decides { Decides (λ number. ⊤)
            (all_beside self.old.table.now.slots.items self.old.table.now.lost self.old.table.now.window.value)
            (all_beside self.new.table.now.slots.items self.new.table.now.lost self.new.table.now.window.value) }
        ensures first { self.new.table.now.lost ≡ (if self.old.table.now.lost == 0 then number else self.old.table.now.lost) }
    {
        let table = &mut *self.table;
        if table.lost != 0 {
            let lost = table.lost;
            table.window = table.window.extended::<u64, Keeps>(&lost);
            return;
        }
        table.window = table.window.extended::<u64, Sets>(&number);
        table.lost = number;
    }
}
