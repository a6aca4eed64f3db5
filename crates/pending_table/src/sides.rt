//! The two sides of a pending table: a desk, which owns a slot, and a window, which resolves ids.
ghost use Rattle.std.specs.Prelude.{◌≡◌, ◌≢◌, ℕ, ◌<◌, ◌≤◌, ◌^◌, true, false, ⊤};
ghost use Rattle.std.specs.Option.{ForSome};
ghost use Rattle.pending_table.specs.Words.{slot_of};
ghost use Rattle.pending_table.specs.DeskLogs.{opened_log};
ghost use Rattle.pending_table.specs.Beside.{Decides, KeepsDesks, KeepsOthers};
ghost use Rattle.pending_table.specs.DeskAnswers.{Leaves, Looks};
ghost use Rattle.pending_table.specs.Taken.{IsOfferable};
ghost use Rattle.pending_table.specs.WindowAnswers.{Expires, Loses, Offers};

use crate::{Abandoned, Fits, Look, Offered, Taken};

/// The owner of one slot. It has one id open at a time.
///
/// No call takes memory, and none waits.
pub trait Desk<R: Fits> {
    ghost use Rattle.std.specs.Prelude.{Option};
    ghost use Rattle.pending_table.specs.Beside.{Beside};
    ghost use Rattle.pending_table.specs.Sites.{Site};
    ghost use Rattle.pending_table.specs.declared.logs.DeskLog.{DeskLog};
    ghost use Rattle.pending_table.specs.declared.answers.Look.{Look};

    /// Its table, with key and number of slots, and the number of its own slot. No call changes them.
    ghost site: { Self → Site R.Key };

    /// What it has opened, loaded and ended.
    ghost log: { Self → DeskLog R };

    /// What the next look answers, where that is told: exact on one thread, nothing among threads.
    ghost next: { Self → Option (Look R) };

    /// What lies beside it in a table that one thread holds.
    ghost beside: { Self → Beside R };

    /// Lets an id wait for its reply, until `deadline` in milliseconds.
    fn open(&mut self, id: u64, deadline: u64)
        requires free { (log self.old).is_open ≡ false }
        requires above { (log self.old).last ≤ id }
        requires small { id < 2 ^ 60 }
        requires place { slot_of (site self.old).slots id ≡ (site self.old).number }
        ensures site { site self.new ≡ site self.old }
        ensures others { KeepsOthers (site self.old).number (beside self.old) (beside self.new) }
        ensures opened { log self.new ≡ opened_log id deadline (log self.old) };

    /// Looks whether the open id was resolved, or its link lost.
    fn look(&mut self) -> Look<R>
        requires open { (log self.old).is_open ≡ true }
        ensures site { site self.new ≡ site self.old }
        ensures others { KeepsOthers (site self.old).number (beside self.old) (beside self.new) }
        ensures answer { Looks R.fits (site self.old).key (log self.old) result (log self.new) }
        ensures told { ForSome (next self.old) (λ answer. result ≡ answer) };

    /// Gives the open id up, where nothing has begun to resolve it.
    fn abandon(&mut self) -> Abandoned
        requires open { (log self.old).is_open ≡ true }
        ensures site { site self.new ≡ site self.old }
        ensures others { KeepsOthers (site self.old).number (beside self.old) (beside self.new) }
        ensures answer { Leaves (log self.old) result (log self.new) };
}

/// A place from which ids are resolved.
///
/// No call takes memory, and none waits.
pub trait Window<R: Fits> {
    ghost use Rattle.pending_table.specs.Beside.{Beside};
    ghost use Rattle.pending_table.specs.Sites.{Site};
    ghost use Rattle.pending_table.specs.declared.logs.WindowLog.{WindowLog};

    /// Its table, with key and number of slots, and its own number. No call changes them.
    ghost site: { Self → Site R.Key };

    /// What it has claimed, set and seen.
    ghost log: { Self → WindowLog R };

    /// What lies beside it in a table that one thread holds.
    ghost beside: { Self → Beside R };

    /// Resolves an id with a value, where it waits.
    fn offer(&mut self, id: u64, given: Taken<R>) -> Offered<R>
        requires fits { IsOfferable R.fits (site self.old).key id given }
        ensures site { site self.new ≡ site self.old }
        ensures desks { KeepsDesks (beside self.old) (beside self.new) }
        ensures answer { Offers (site self.old).slots id given (log self.old) result (log self.new) }
        ensures decides { Decides (λ number. (result ≡ Offered.Taken) × (number ≡ slot_of (site self.old).slots id))
            (beside self.old) (beside self.new) };

    /// Resolves each waiting id whose deadline is at most `now`, in milliseconds.
    fn expire(&mut self, now: u64)
        ensures site { site self.new ≡ site self.old }
        ensures desks { KeepsDesks (beside self.old) (beside self.new) }
        ensures expired { Expires (site self.old).slots now (log self.old) (log self.new) }
        ensures decides { Decides (λ number. ((beside self.old).desks number).deadline ≤ now) (beside self.old) (beside self.new) };

    /// Marks the link as lost for the cause with this number, where it isn't marked yet.
    fn lose(&mut self, number: u64)
        requires number { number ≢ 0 }
        ensures site { site self.new ≡ site self.old }
        ensures desks { KeepsDesks (beside self.old) (beside self.new) }
        ensures lost { Loses number (log self.old) (log self.new) }
        ensures decides { Decides (λ number. ⊤) (beside self.old) (beside self.new) };
}
