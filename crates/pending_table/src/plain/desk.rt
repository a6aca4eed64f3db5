//! The desk of a slot of a table of one thread.
ghost use Rattle.std.specs.Prelude.{◌≡◌, ◌+◌, ◌<◌, ◌≤◌, ◌^◌, true, false, Some, length};
ghost use Rattle.std.specs.Option.{ForSome};

use crate::plain::PlainTable;
use crate::plain::held::Held;
use crate::{Abandoned, Desk, Fits, Look};

/// The desk of one slot. It borrows its table.
#[derive(Drop)]
pub struct PlainDesk<'a, R: Fits> {
    pub(crate) table: &'a mut PlainTable<R>,
    pub(crate) slot: usize,
}

impl<'a, R: Fits> Desk<R> for PlainDesk<'a, R> {
    ghost use Rattle.pending_table.specs.Beside.{KeepsOthers};
    ghost use Rattle.pending_table.specs.DeskAnswers.{Leaves, Looks};
    ghost use Rattle.pending_table.specs.DeskLogs.{opened_log};
    ghost use Rattle.pending_table.specs.PlainSlots.{found, held_after_abandon, held_after_look, left};
    ghost use Rattle.pending_table.specs.PlainTables.{all_beside, held_at, log_at, Puts};
    ghost use Rattle.pending_table.specs.Words.{slot_of};
    ghost use Rattle.pending_table.specs.Sites.{lent_site};

    ghost site = { λ d. lent_site d.table.ghost_name d.table.now.key.value (length d.table.now.slots.items) d.slot };

    ghost log = { λ d. log_at d.table.now.slots.items d.slot };

    ghost next = { λ d. Some (found (held_at d.table.now.slots.items d.slot) d.table.now.lost) };

    ghost beside = { λ d. all_beside d.table.now.slots.items d.table.now.lost d.table.now.window.value };

    fn open(&mut self, id: u64, deadline: u64)
        requires free { (log_at self.old.table.now.slots.items self.old.slot).is_open ≡ false }
        requires above { (log_at self.old.table.now.slots.items self.old.slot).last ≤ id }
        requires small { id < 2 ^ 60 }
        requires place { slot_of (length self.old.table.now.slots.items) id ≡ self.old.slot }
        ensures same_table { self.new.table.ghost_name ≡ self.old.table.ghost_name }
        ensures site { lent_site self.new.table.ghost_name self.new.table.now.key.value (length self.new.table.now.slots.items) self.new.slot
            ≡ lent_site self.old.table.ghost_name self.old.table.now.key.value (length self.old.table.now.slots.items) self.old.slot }
        ensures others { KeepsOthers self.old.slot (all_beside self.old.table.now.slots.items self.old.table.now.lost self.old.table.now.window.value)
            (all_beside self.new.table.now.slots.items self.new.table.now.lost self.new.table.now.window.value) }
        ensures same { (self.new.slot ≡ self.old.slot) × (self.new.table.now.key ≡ self.old.table.now.key)
            × (self.new.table.now.lost ≡ self.old.table.now.lost) × (self.new.table.now.window ≡ self.old.table.now.window) }
        ensures opened { log_at self.new.table.now.slots.items self.new.slot
            ≡ opened_log id deadline (log_at self.old.table.now.slots.items self.old.slot) }
        ensures slots { Puts self.old.slot (Held.Waiting id) self.old.table.now.slots.items self.new.table.now.slots.items }
    {
        let slot = self.slot;
        let table = &mut *self.table;
        table.slots[slot].open(id, deadline)
    }

    fn look(&mut self) -> Look<R>
        requires open { (log_at self.old.table.now.slots.items self.old.slot).is_open ≡ true }
        ensures same_table { self.new.table.ghost_name ≡ self.old.table.ghost_name }
        ensures site { lent_site self.new.table.ghost_name self.new.table.now.key.value (length self.new.table.now.slots.items) self.new.slot
            ≡ lent_site self.old.table.ghost_name self.old.table.now.key.value (length self.old.table.now.slots.items) self.old.slot }
        ensures others { KeepsOthers self.old.slot (all_beside self.old.table.now.slots.items self.old.table.now.lost self.old.table.now.window.value)
            (all_beside self.new.table.now.slots.items self.new.table.now.lost self.new.table.now.window.value) }
        ensures same { (self.new.slot ≡ self.old.slot) × (self.new.table.now.key ≡ self.old.table.now.key)
            × (self.new.table.now.lost ≡ self.old.table.now.lost) × (self.new.table.now.window ≡ self.old.table.now.window) }
        ensures answer { Looks R.fits self.old.table.now.key.value (log_at self.old.table.now.slots.items self.old.slot)
            result (log_at self.new.table.now.slots.items self.new.slot) }
        ensures told { ForSome (Some (found (held_at self.old.table.now.slots.items self.old.slot) self.old.table.now.lost)) (λ answer. result ≡ answer) }
        ensures slots { Puts self.old.slot (held_after_look (held_at self.old.table.now.slots.items self.old.slot) self.old.table.now.lost)
            self.old.table.now.slots.items self.new.table.now.slots.items }
    {
        let slot = self.slot;
        let table = &mut *self.table;
        let lost = table.lost;
        table.slots[slot].look(lost)
    }

    fn abandon(&mut self) -> Abandoned
        requires open { (log_at self.old.table.now.slots.items self.old.slot).is_open ≡ true }
        ensures same_table { self.new.table.ghost_name ≡ self.old.table.ghost_name }
        ensures site { lent_site self.new.table.ghost_name self.new.table.now.key.value (length self.new.table.now.slots.items) self.new.slot
            ≡ lent_site self.old.table.ghost_name self.old.table.now.key.value (length self.old.table.now.slots.items) self.old.slot }
        ensures others { KeepsOthers self.old.slot (all_beside self.old.table.now.slots.items self.old.table.now.lost self.old.table.now.window.value)
            (all_beside self.new.table.now.slots.items self.new.table.now.lost self.new.table.now.window.value) }
        ensures same { (self.new.slot ≡ self.old.slot) × (self.new.table.now.key ≡ self.old.table.now.key)
            × (self.new.table.now.lost ≡ self.old.table.now.lost) × (self.new.table.now.window ≡ self.old.table.now.window) }
        ensures answer { Leaves (log_at self.old.table.now.slots.items self.old.slot)
            result (log_at self.new.table.now.slots.items self.new.slot) }
        ensures told { result ≡ left (held_at self.old.table.now.slots.items self.old.slot) }
        ensures slots { Puts self.old.slot (held_after_abandon (held_at self.old.table.now.slots.items self.old.slot))
            self.old.table.now.slots.items self.new.table.now.slots.items }
    {
        let slot = self.slot;
        let table = &mut *self.table;
        table.slots[slot].abandon()
    }
}
