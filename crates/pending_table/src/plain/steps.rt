//! The steps of the records that a table of one thread keeps of its desks and its window.
use crate::trace::{Begins, Extends};
use crate::{Claim, DeskLog, Sight, Taken, WindowLog};

pub(crate) struct Blank;

impl<R> Begins<DeskLog<R>> for Blank {
    ghost use Rattle.pending_table.specs.DeskLogs.{blank_log};

    ghost first = { blank_log };
}

impl<R> Begins<WindowLog<R>> for Blank {
    ghost use Rattle.pending_table.specs.WindowLogs.{blank_window};

    ghost first = { blank_window };
}

/// An id is opened, with its deadline.
pub(crate) struct Opens;

impl<R> Extends<DeskLog<R>, (u64, u64)> for Opens {
    ghost use Rattle.pending_table.specs.PlainSlots.{opens};

    ghost after = { opens };
}

/// A desk finds its id resolved.
pub(crate) struct Gets;

impl<R> Extends<DeskLog<R>, Taken<R>> for Gets {
    ghost use Rattle.pending_table.specs.PlainSlots.{gets};

    ghost after = { gets };
}

/// A desk finds its id waiting, and no loss.
pub(crate) struct Waits;

impl<R> Extends<DeskLog<R>, ()> for Waits {
    ghost use Rattle.pending_table.specs.PlainSlots.{waits};

    ghost after = { waits };
}

/// A desk finds its id waiting, and a loss.
pub(crate) struct Loses;

impl<R> Extends<DeskLog<R>, u64> for Loses {
    ghost use Rattle.pending_table.specs.PlainSlots.{loses};

    ghost after = { loses };
}

/// A desk gives up an id that waits.
pub(crate) struct Frees;

impl<R> Extends<DeskLog<R>, ()> for Frees {
    ghost use Rattle.pending_table.specs.PlainSlots.{frees};

    ghost after = { frees };
}

/// A desk that would give up its id finds it resolved.
pub(crate) struct Meets;

impl<R> Extends<DeskLog<R>, ()> for Meets {
    ghost use Rattle.pending_table.specs.PlainSlots.{meets};

    ghost after = { meets };
}

/// A window resolves an id with a value.
pub(crate) struct Claims;

impl<R> Extends<WindowLog<R>, Claim<R>> for Claims {
    ghost use Rattle.pending_table.specs.PlainTables.{claims};

    ghost after = { claims };
}

/// A window sees that a slot has another word.
pub(crate) struct Drops;

impl<R> Extends<WindowLog<R>, (u64, u64)> for Drops {
    ghost use Rattle.pending_table.specs.PlainTables.{drops};

    ghost after = { drops };
}

/// A scan begins.
pub(crate) struct Scans;

impl<R> Extends<WindowLog<R>, ()> for Scans {
    ghost use Rattle.pending_table.specs.PlainTables.{scans};

    ghost after = { scans };
}

/// A scan at a moment has seen one more slot.
pub(crate) struct Sees;

impl<R> Extends<WindowLog<R>, (Sight, u64)> for Sees {
    ghost use Rattle.pending_table.specs.PlainTables.{sees};

    ghost after = { sees };
}

/// A window sets the lost word.
pub(crate) struct Sets;

impl<R> Extends<WindowLog<R>, u64> for Sets {
    ghost use Rattle.pending_table.specs.PlainTables.{sets};

    ghost after = { sets };
}

/// A window finds the lost word set.
pub(crate) struct Keeps;

impl<R> Extends<WindowLog<R>, u64> for Keeps {
    ghost use Rattle.pending_table.specs.PlainTables.{keeps};

    ghost after = { keeps };
}
