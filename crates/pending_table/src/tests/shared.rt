//! The lists of calls at a table that threads share.
ghost use Rattle.std.specs.Prelude.{◌≡◌, ℕ, length};
ghost use Rattle.pending_table.specs.DeskLogs.{blank_log};
ghost use Rattle.pending_table.specs.Elements.{EachAt};
ghost use Rattle.pending_table.specs.TableSeats.{IsDeskSeat, IsWindowSeat, desk_log, desk_site, log_of, site_at, window_log_of};
ghost use Rattle.pending_table.specs.WindowLogs.{blank_window};

use crate::tests::{
    Answer, Call, Driver, Known, at_desk, at_window, runs_abandoned, runs_due, runs_lost,
    runs_next_round, runs_thousand,
};
use crate::{DeskSeat, SharedDesk, SharedTable, SharedWindow, Tag, WindowSeat};
use std::test::Fail;

/// The desk and a window of a table of one slot, and what the caller knows of the desk.
#[derive(Drop)]
struct Sides<'a> {
    desk: SharedDesk<'a, Tag>,
    window: SharedWindow<'a, Tag>,
    known: Known,
    ghost one: { ((desk_site desk).slots ≡ 1) × ((desk_site desk).number ≡ 0) },
    ghost last: { (desk_log desk).last ≡ known.last },
    ghost is_open: { (desk_log desk).is_open ≡ known.is_open },
}

impl<'a> Driver for Sides<'a> {
    fn call(&mut self, call: Call) -> Answer {
        match call {
            Call::Reply { .. } | Call::Expire { .. } | Call::Lose { .. } => at_window(
                &mut self.window,
                call,
            ),
            _ => at_desk(&mut self.desk, &mut self.known, call),
        }
    }
}

/// Sits down at the desk and the first window of a new table of one slot.
fn sit<'a>(
    table: &'a SharedTable<Tag>,
    mut desks: Vec<DeskSeat<Tag>>,
    mut windows: Vec<WindowSeat<Tag>>,
) -> Sides<'a>
    requires one { (site_at table.now 0).slots ≡ 1 }
    requires counts { (length desks.items ≡ 1) × (length windows.items ≡ 3) }
    requires desks { EachAt (λ slot seat. IsDeskSeat (site_at table.now slot) seat × (log_of seat ≡ blank_log)) desks.items }
    requires windows { EachAt (λ number seat. IsWindowSeat (site_at table.now number) seat × (window_log_of seat ≡ blank_window)) windows.items }
{
    let desk = desks.swap_remove(0);
    let window = windows.swap_remove(0);
    Sides {
        desk: table.desk(desk),
        window: table.window(window),
        known: Known {
            last: 0,
            is_open: false,
        },
    }
}

#[test]
fn a_call_is_due_at_its_deadline(rt: HostRuntime) -> Result<(), Fail> {
    let (table, desks, windows) = SharedTable::new(rt.alloc(), &(), 1)?;
    let mut at = sit(&table, desks, windows);
    runs_due(&rt, &mut at);
    Ok(())
}

#[test]
fn the_first_loss_stays(rt: HostRuntime) -> Result<(), Fail> {
    let (table, desks, windows) = SharedTable::new(rt.alloc(), &(), 1)?;
    let mut at = sit(&table, desks, windows);
    runs_lost(&rt, &mut at);
    Ok(())
}

#[test]
fn a_reply_after_an_abandon_is_dropped(rt: HostRuntime) -> Result<(), Fail> {
    let (table, desks, windows) = SharedTable::new(rt.alloc(), &(), 1)?;
    let mut at = sit(&table, desks, windows);
    runs_abandoned(&rt, &mut at);
    Ok(())
}

#[test]
fn a_reply_of_the_next_round_is_dropped(rt: HostRuntime) -> Result<(), Fail> {
    let (table, desks, windows) = SharedTable::new(rt.alloc(), &(), 1)?;
    let mut at = sit(&table, desks, windows);
    runs_next_round(&rt, &mut at);
    Ok(())
}

#[test]
fn a_slot_serves_a_thousand_calls(rt: HostRuntime) -> Result<(), Fail> {
    let (table, desks, windows) = SharedTable::new(rt.alloc(), &(), 1)?;
    let mut at = sit(&table, desks, windows);
    runs_thousand(&rt, &mut at);
    Ok(())
}
