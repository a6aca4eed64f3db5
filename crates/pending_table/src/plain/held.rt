//! What lies in a slot of a table of one thread.
ghost use Rattle.std.specs.Prelude.{◌≡◌};
ghost use Rattle.pending_table.specs.PlainSlots.{shown};

use crate::Taken;
use crate::word::SlotState;
use std::mem;

/// What a slot holds. It is never seen claimed, since a window resolves an id in one call.
#[derive(Drop)]
pub(crate) enum Held<R> {
    Unused,
    Free { id: u64 },
    Waiting { id: u64 },
    Done { id: u64, given: Taken<R> },
}

impl<R> Held<R> {
    pub(crate) fn state(&self) -> SlotState
        ensures { result ≡ shown self.now }
    {
        match self {
            Held::Unused => SlotState::Unused,
            Held::Free { id } => SlotState::Free { id: *id },
            Held::Waiting { id } => SlotState::Waiting { id: *id },
            Held::Done { id, given: _ } => SlotState::Done { id: *id },
        }
    }

    /// Takes out what is there.
    pub(crate) fn take(&mut self) -> Held<R>
        ensures taken { result ≡ self.old }
        ensures left { self.new ≡ Held.Unused }
    {
        mem::replace(self, Held::Unused)
    }

    /// Puts something in where nothing is. The value isn't dropped, since a reply need not be `Drop`.
    pub(crate) fn put(&mut self, held: Held<R>)
        requires empty { self.old ≡ Held.Unused }
        ensures { self.new ≡ held }
    {
        let was = mem::replace(self, held);
        let Held::Unused = was else { unreachable!() };
    }
}
