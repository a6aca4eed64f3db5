//! A window of a table that threads share.
ghost use Rattle.std.specs.Prelude.{◌≡◌, ℕ, ◌<◌, None, []};
ghost use Rattle.pending_table.specs.Seats.{IsSeated, IsWindowOf};
ghost use Rattle.pending_table.specs.SharedPlays.{the_window};

use crate::shared::{PartSeat, WindowSeat, Words, window_calls};
use crate::{Fits, Offered, Taken, Window};

/// A window. It has a seat at the table of its own.
#[derive(Drop)]
pub struct SharedWindow<'a, R: Fits> {
    pub(crate) words: &'a Words<R>,
    pub(crate) seat: PartSeat<R>,
    pub(crate) slots: u32,
    ghost seated: { IsSeated words.now.table_id words.now.key.slots seat.table_id },
    ghost sized: { (words.now.key.slots ≡ slots) × (words.now.table_id.slots ≡ slots) × (0 < slots) },
    ghost view_is: { IsWindowOf words.now.key.key.value seat.me.0 },
    ghost bare: { seat.me.1 ≡ [] },
    ghost idle: { (the_window seat.me.0).giving ≡ None },
}

impl<'a, R: Fits> SharedWindow<'a, R> {
    ghost use Rattle.pending_table.specs.TableSeats.{IsWindowSeat, window_log, window_log_of, window_site};

    /// Its seat, for another window.
    pub fn into_seat(self) -> WindowSeat<R>
        ensures own { IsWindowSeat (window_site self.entry) result }
        ensures log { window_log_of result ≡ window_log self.entry }
    {
        let SharedWindow {
            words: _,
            seat,
            slots: _,
        } = self;
        WindowSeat { seat }
    }
}

impl<'a, R: Fits> Window<R> for SharedWindow<'a, R> {
    ghost use Rattle.pending_table.specs.Beside.{untold};
    ghost use Rattle.pending_table.specs.TableSeats.{window_log, window_site};
    ghost use Rattle.pending_table.specs.Taken.{IsOfferable};
    ghost use Rattle.pending_table.specs.WindowAnswers.{Offers};

    ghost site = { window_site };

    ghost log = { window_log };

    ghost beside = { λ w. untold };

    fn offer(&mut self, id: u64, given: Taken<R>) -> Offered<R>
        requires fits { IsOfferable R.fits self.old.words.now.key.key.value id given }
        ensures words { self.new.words ≡ self.old.words }
        ensures number { (the_window self.new.seat.me.0).number ≡ (the_window self.old.seat.me.0).number }
        ensures answer { Offers self.old.words.now.key.slots id given (the_window self.old.seat.me.0).log result (the_window self.new.seat.me.0).log }
    {
        window_calls::offer(self.words, &mut self.seat, self.slots, id, given)
    }

    fn expire(&mut self, now: u64) {
        window_calls::expire(self.words, &mut self.seat, self.slots, now);
    }

    fn lose(&mut self, number: u64) {
        window_calls::lose(self.words, &mut self.seat, self.slots, number);
    }
}
