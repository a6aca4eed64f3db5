//! The seats of the desks and then of the windows are cut off the first seat of a table, one after another.
ghost use Rattle.std.specs.Prelude.{◌≡◌, ℕ, ◌+◌, ◌<◌, Some, []};
ghost use Rattle.pending_table.specs.Cutting.{view_from, windows_from};
ghost use Rattle.pending_table.specs.Seats.{IsSeated, one_desk, one_window};
ghost use Rattle.pending_table.specs.SharedViews.{blank_desk, blank_part};

use crate::shared::meaning::Meaning;
use crate::shared::plays::{CutsDesk, CutsWindow};
use crate::shared::{PartSeat, Words};

/// Cuts off the seat of the next desk.
pub(crate) fn cut_desk<R: Meaning>(
    words: &Words<R>,
    whole: &mut PartSeat<R>,
    slot: u32,
) -> PartSeat<R>
    requires seated { IsSeated words.now.table_id words.now.key.slots whole.old.table_id }
    requires inside { slot < words.now.key.slots }
    requires view { whole.old.me.0 ≡ view_from words.now.key.key.value words.now.key.slots slot }
    ensures table { (whole.new.table_id ≡ whole.old.table_id) × (result.table_id ≡ whole.old.table_id) }
    ensures rest { whole.new.me ≡ (view_from words.now.key.key.value words.now.key.slots (slot + 1), whole.old.me.1) }
    ensures desk { result.me ≡ (one_desk (Some words.now.key.key.value) (blank_desk slot), []) }
{
    words.split_seat::<CutsDesk>(whole)
}

/// Cuts off the seat of the next window.
pub(crate) fn cut_window<R: Meaning>(
    words: &Words<R>,
    whole: &mut PartSeat<R>,
    number: u32,
) -> PartSeat<R>
    requires seated { IsSeated words.now.table_id words.now.key.slots whole.old.table_id }
    requires inside { number < 3 }
    requires view { whole.old.me.0 ≡ windows_from words.now.key.key.value number }
    ensures table { (whole.new.table_id ≡ whole.old.table_id) × (result.table_id ≡ whole.old.table_id) }
    ensures rest { whole.new.me ≡ (windows_from words.now.key.key.value (number + 1), whole.old.me.1) }
    ensures window { result.me ≡ (one_window (Some words.now.key.key.value) (blank_part number), []) }
{
    words.split_seat::<CutsWindow>(whole)
}
