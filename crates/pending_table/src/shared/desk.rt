//! The desk of a slot of a table that threads share.
ghost use Rattle.std.specs.Prelude.{◌≡◌, ℕ, ◌<◌, ◌≤◌, ◌^◌, true, None, [], length};
ghost use Rattle.pending_table.specs.Seats.{IsDeskOf, IsSeated};
ghost use Rattle.pending_table.specs.SharedPlays.{the_desk};

use crate::shared::desk_calls::{abandon_id, look_at, open_id};
use crate::shared::{DeskSeat, PartSeat, Words};
use crate::{Abandoned, Desk, Fits, Look};

/// The desk of one slot. It has a seat at the table of its own.
#[derive(Drop)]
pub struct SharedDesk<'a, R: Fits> {
    pub(crate) words: &'a Words<R>,
    pub(crate) seat: PartSeat<R>,
    pub(crate) slots: u32,
    pub(crate) slot: u32,
    /// One more than the last id that was opened, or 0 where none was.
    pub(crate) last: u64,
    /// How many ids were opened.
    pub(crate) opened: u64,
    ghost seated: { IsSeated words.now.table_id words.now.key.slots seat.table_id },
    ghost inside: { (words.now.key.slots ≡ slots) × (slot < slots) },
    ghost view_is: { IsDeskOf words.now.key.key.value slot seat.me.0 },
    ghost bare: { seat.me.1 ≡ [] },
    ghost last_is: { ((the_desk seat.me.0).log.last ≡ last) × (last ≤ 2 ^ 60) },
    ghost counted: { (length (the_desk seat.me.0).log.opened ≡ opened) × (opened ≤ last) },
    ghost begun: { (the_desk seat.me.0).log.is_open ≡ true → 0 < last },
    ghost untaken: { (the_desk seat.me.0).taken ≡ None },
}

impl<'a, R: Fits> SharedDesk<'a, R> {
    ghost use Rattle.pending_table.specs.TableSeats.{IsDeskSeat, desk_log, desk_site, log_of};

    /// Its seat, for another desk of the same slot.
    pub fn into_seat(self) -> DeskSeat<R>
        ensures own { IsDeskSeat (desk_site self.entry) result }
        ensures log { log_of result ≡ desk_log self.entry }
    {
        let SharedDesk {
            words: _,
            seat,
            slots: _,
            slot,
            last,
            opened,
        } = self;
        DeskSeat {
            seat,
            slot,
            last,
            opened,
        }
    }
}

impl<'a, R: Fits> Desk<R> for SharedDesk<'a, R> {
    ghost use Rattle.pending_table.specs.Beside.{untold};
    ghost use Rattle.pending_table.specs.TableSeats.{desk_log, desk_site};

    ghost site = { desk_site };

    ghost log = { desk_log };

    ghost next = { λ d. None };

    ghost beside = { λ d. untold };

    fn open(&mut self, id: u64, deadline: u64) {
        open_id(
            self.words,
            &mut self.seat,
            self.slots,
            self.slot,
            id,
            deadline,
        );
        self.last = id + 1;
        self.opened += 1;
    }

    fn look(&mut self) -> Look<R> {
        let id = self.last - 1;
        look_at(self.words, &mut self.seat, self.slots, self.slot, id)
    }

    fn abandon(&mut self) -> Abandoned {
        abandon_id(self.words, &mut self.seat, self.slot, self.last - 1)
    }
}
