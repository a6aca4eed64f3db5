//! The lists of calls at the table of one thread.
ghost use Rattle.std.specs.Prelude.{◌≡◌, ◌<◌, ℕ, length, true, false};
ghost use Rattle.pending_table.specs.PlainTables.{log_at};

use crate::tests::{
    Answer, Call, Driver, Known, at_desk, at_window, runs_abandoned, runs_due, runs_lost,
    runs_next_round, runs_thousand,
};
use crate::{PlainTable, Tag};
use std::test::Fail;

/// A table and what its caller knows of the desk.
#[derive(Drop)]
struct Plain {
    table: PlainTable<Tag>,
    known: Known,
    ghost one: { length table.slots.items ≡ 1 },
    ghost last: { (log_at table.slots.items 0).last ≡ known.last },
    ghost is_open: { (log_at table.slots.items 0).is_open ≡ known.is_open },
}

impl Driver for Plain {
    fn call(&mut self, call: Call) -> Answer {
        match call {
            Call::Reply { .. } | Call::Expire { .. } | Call::Lose { .. } => at_window(
                &mut self.table.window(),
                call,
            ),
            _ => at_desk(&mut self.table.desk(0), &mut self.known, call),
        }
    }
}

fn new(rt: &HostRuntime) -> Result<Plain, Fail> {
    Ok(Plain {
        table: PlainTable::new(rt.alloc(), &(), 1)?,
        known: Known {
            last: 0,
            is_open: false,
        },
    })
}

#[test]
fn a_call_is_due_at_its_deadline(rt: HostRuntime) -> Result<(), Fail> {
    let mut at = new(&rt)?;
    runs_due(&rt, &mut at);
    Ok(())
}

#[test]
fn the_first_loss_stays(rt: HostRuntime) -> Result<(), Fail> {
    let mut at = new(&rt)?;
    runs_lost(&rt, &mut at);
    Ok(())
}

#[test]
fn a_reply_after_an_abandon_is_dropped(rt: HostRuntime) -> Result<(), Fail> {
    let mut at = new(&rt)?;
    runs_abandoned(&rt, &mut at);
    Ok(())
}

#[test]
fn a_reply_of_the_next_round_is_dropped(rt: HostRuntime) -> Result<(), Fail> {
    let mut at = new(&rt)?;
    runs_next_round(&rt, &mut at);
    Ok(())
}

#[test]
fn a_slot_serves_a_thousand_calls(rt: HostRuntime) -> Result<(), Fail> {
    let mut at = new(&rt)?;
    runs_thousand(&rt, &mut at);
    Ok(())
}
