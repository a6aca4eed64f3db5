//! The pending table of one thread.
ghost use Rattle.std.specs.Prelude.{◌≡◌, ◌<◌, ℕ, length, IfOk};
ghost use Rattle.pending_table.specs.PlainTables.{AllSit, AllUnused};

mod desk;
mod held;
mod slot;
mod steps;
mod window;

use crate::plain::slot::PlainSlot;
use crate::plain::steps::Blank;
use crate::trace::Trace;
use crate::{Fits, OutOfMemory, WindowLog};
pub use desk::PlainDesk;
use std::alloc::Global;
use std::snapshot::Snapshot;
pub use window::PlainWindow;

/// The pending table of one thread. A desk or a window borrows it for as long as it is used.
#[derive(Drop)]
pub struct PlainTable<R: Fits> {
    key: Snapshot<R::Key>,
    slots: Vec<PlainSlot<R>>,
    /// The number that was set as lost, or 0.
    lost: u64,
    window: Trace<WindowLog<R>>,
    ghost some: { 0 < length slots.items },
    ghost set_is: { window.value.set ≡ lost },
    ghost sits: { ∥ AllSit R.fits key.value window.value slots.items ∥₁ },
}

impl<R: Fits> PlainTable<R> {
    ghost use Rattle.pending_table.specs.WindowLogs.{blank_window};

    /// A table of unused slots. It keeps of its key what contracts see, and nothing else.
    pub fn new(alloc: Global, key: &R::Key, slots: u32) -> Result<PlainTable<R>, OutOfMemory>
        requires { 0 < slots }
        ensures site { IfOk result (λ table. (table.key.value ≡ key.now) × (length table.slots.items ≡ slots)) }
        ensures logs { IfOk result (λ table. AllUnused table.slots.items) }
        ensures window { IfOk result (λ table. (table.window.value ≡ blank_window) × (table.lost ≡ 0)) }
    {
        let slots = unused_slots(alloc, slots)?;
        Ok(PlainTable {
            key: Snapshot::of(key),
            slots,
            lost: 0,
            window: Trace::begin::<Blank>(),
        })
    }

    /// The desk of a slot.
    pub fn desk(&mut self, slot: u32) -> PlainDesk<'_, R>
        requires { slot < length self.old.slots.items }
        ensures same_table { result.table.ghost_name ≡ self.entry.ghost_name }
        ensures same { (result.table.now ≡ self.old) × (result.slot ≡ slot) }
    {
        PlainDesk {
            table: self,
            slot: slot as usize,
        }
    }

    /// A window.
    pub fn window(&mut self) -> PlainWindow<'_, R>
        ensures same_table { result.table.ghost_name ≡ self.entry.ghost_name }
        ensures same { result.table.now ≡ self.old }
    {
        PlainWindow { table: self }
    }
}

fn unused_slots<R>(alloc: Global, count: u32) -> Result<Vec<PlainSlot<R>>, OutOfMemory>
    ensures count { IfOk result (λ slots. length slots.items ≡ count) }
    ensures unused { IfOk result (λ slots. AllUnused slots.items) }
{
    let mut slots = Vec::with_capacity(alloc, count as usize)?;
    for _ in 0..count {
        slots.push_reserved(PlainSlot::new());
    }
    Ok(slots)
}
