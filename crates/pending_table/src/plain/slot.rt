//! The slot of a table of one thread.
ghost use Rattle.std.specs.Prelude.{true, ◌≡◌, ◌+◌, ◌≤◌, ◌<◌, ◌^◌};
ghost use Rattle.pending_table.specs.Words.{last_of};
ghost use Rattle.pending_table.specs.PlainSlots.{is_open_of, shown};

use crate::plain::held::Held;
use crate::plain::steps::{Blank, Frees, Gets, Loses, Meets, Opens, Waits};
use crate::trace::Trace;
use crate::word::{SlotState, to_word};
use crate::{Abandoned, DeskLog, Look, Sight, Taken};

#[derive(Drop)]
pub(crate) struct PlainSlot<R> {
    /// The deadline that was stored last, in milliseconds.
    deadline: u64,
    pub(crate) held: Held<R>,
    pub(crate) log: Trace<DeskLog<R>>,
    ghost last_is: { log.value.last ≡ last_of (shown held) },
    ghost open_is: { log.value.is_open ≡ is_open_of held },
    ghost deadline_is: { log.value.deadline ≡ deadline },
    ghost small: { last_of (shown held) ≤ 2 ^ 60 },
}

impl<R> PlainSlot<R> {
    ghost use Rattle.std.specs.Prelude.{false};
    ghost use Rattle.pending_table.specs.DeskLogs.{blank_log, opened_log};
    ghost use Rattle.pending_table.specs.Words.{word_of};
    ghost use Rattle.pending_table.specs.PlainSlots.{found, held_after_abandon, held_after_look, held_after_scan, leaves, left, looked, sight_of};

    pub(crate) fn new() -> PlainSlot<R>
        ensures held { result.held ≡ Held.Unused }
        ensures log { result.log.value ≡ blank_log }
    {
        PlainSlot {
            deadline: 0,
            held: Held::Unused,
            log: Trace::begin::<Blank>(),
        }
    }

    pub(crate) fn word(&self) -> u64
        ensures { result ≡ word_of (shown self.now.held) }
    {
        to_word(self.held.state())
    }

    pub(crate) fn open(&mut self, id: u64, deadline: u64)
        requires free { self.old.log.value.is_open ≡ false }
        requires small { id < 2 ^ 60 }
        ensures held { self.new.held ≡ Held.Waiting id }
        ensures log { self.new.log.value ≡ opened_log id deadline self.old.log.value }
    {
        let was = self.held.take();
        let (Held::Unused | Held::Free { id: _ }) = was else {
            unreachable!()
        };
        self.held.put(Held::Waiting { id });
        self.deadline = deadline;
        self.log = self.log.extended::<(u64, u64), Opens>(&(id, deadline));
    }

    pub(crate) fn look(&mut self, lost: u64) -> Look<R>
        requires open { self.old.log.value.is_open ≡ true }
        ensures answer { result ≡ found self.old.held lost }
        ensures held { self.new.held ≡ held_after_look self.old.held lost }
        ensures log { self.new.log.value ≡ looked self.old.held lost self.old.log.value }
    {
        match self.held.take() {
            Held::Unused | Held::Free { id: _ } => unreachable!(),
            Held::Done { id, given } => {
                self.held.put(Held::Free { id });
                self.log = self.log.extended::<Taken<R>, Gets>(&given);
                Look::Ready(given)
            }
            Held::Waiting { id } => {
                if lost == 0 {
                    self.held.put(Held::Waiting { id });
                    self.log = self.log.extended::<(), Waits>(&());
                    return Look::Pending;
                }
                self.held.put(Held::Free { id });
                self.log = self.log.extended::<u64, Loses>(&lost);
                Look::Lost { number: lost }
            }
        }
    }

    pub(crate) fn abandon(&mut self) -> Abandoned
        requires open { self.old.log.value.is_open ≡ true }
        ensures answer { result ≡ left self.old.held }
        ensures held { self.new.held ≡ held_after_abandon self.old.held }
        ensures log { self.new.log.value ≡ leaves self.old.held self.old.log.value }
    {
        match self.held.take() {
            Held::Unused | Held::Free { id: _ } => unreachable!(),
            Held::Waiting { id } => {
                self.held.put(Held::Free { id });
                self.log = self.log.extended::<(), Frees>(&());
                Abandoned::Free
            }
            done => {
                self.held.put(done);
                self.log = self.log.extended::<(), Meets>(&());
                Abandoned::Claimed
            }
        }
    }

    /// Resolves the id where it waits and its deadline has come.
    pub(crate) fn expire(&mut self, slot: u64, now: u64) -> Sight
        ensures sight { result ≡ sight_of now slot self.old.log.value.deadline self.old.held }
        ensures held { self.new.held ≡ held_after_scan now self.old.log.value.deadline self.old.held }
        ensures log { self.new.log ≡ self.old.log }
    {
        let SlotState::Waiting { id } = self.held.state() else {
            let word = self.word();
            return Sight::Word { slot, word };
        };
        let deadline = self.deadline;
        if now < deadline {
            return Sight::Due { slot, id, deadline };
        }
        self.claim(
            id,
            Taken::Timeout {
                deadline,
                moment: now,
            },
        );
        Sight::Claimed { slot, id, deadline }
    }

    /// Resolves the id that waits.
    pub(crate) fn claim(&mut self, id: u64, given: Taken<R>)
        requires waits { self.old.held ≡ Held.Waiting id }
        ensures held { self.new.held ≡ Held.Done id given }
        ensures log { self.new.log ≡ self.old.log }
    {
        let was = self.held.take();
        let Held::Waiting { id: _ } = was else {
            unreachable!()
        };
        self.held.put(Held::Done { id, given });
    }
}
