//! What no clause says: that each round gives what one round gives, and how the least time is found.

use crate::least::{RoundTime, TimeFault, least_reading, least_writing};
use crate::rounds::{read_rounds, write_rounds};
use crate::{Printed, print};
use dubbo_io::{MemSink, OutOfMemory};
use hessian_reader::HessianFault;
use std::io;
use std::time::{CpuClock, Duration};

/// A list of the int 0 and of itself, as the grammar spells it.
const KNOT: [u8; 4] = [0x7a, 0x90, 0x51, 0x90];

#[test]
fn rounds_give_what_one_round_gives(rt: HostRuntime) -> Result<(), HessianFault> {
    let alloc = rt.alloc();
    let graph = read_rounds(alloc, &KNOT, 3)?;
    assert_eq!(rt; graph.parts().nodes.as_slice().len(), 1);
    let written = write_rounds(alloc, &graph, 3);
    assert_eq!(rt; written.ok().as_deref(), Some(KNOT.as_slice()));
    Ok(())
}

#[test]
fn a_damaged_graph_is_refused_in_any_round(rt: HostRuntime) {
    let refused = read_rounds(rt.alloc(), &KNOT[..3], 2).err();
    assert_eq!(rt; refused, Some(HessianFault::Short { at: 3 }));
}

/// What a clock that stands still tells of a round.
const NO_TIME: RoundTime = RoundTime {
    answered: Duration::ZERO,
    given_back: Duration::ZERO,
};

/// A clock that stands still.
struct Still;

impl CpuClock for Still {
    fn thread_cpu_time(&self) -> io::Result<Duration> {
        Ok(Duration::from_secs(7))
    }

    fn process_cpu_time(&self) -> io::Result<Duration> {
        Ok(Duration::from_secs(7))
    }
}

#[test]
fn no_time_passes_on_a_clock_that_stands_still(rt: HostRuntime) -> Result<(), TimeFault> {
    let alloc = rt.alloc();
    assert_eq!(rt; least_reading(&Still, alloc, &KNOT, 3)?, NO_TIME);
    let graph = match read_rounds(alloc, &KNOT, 1) {
        Ok(graph) => graph,
        Err(fault) => return Err(TimeFault::Read(fault)),
    };
    assert_eq!(rt; least_writing(&Still, alloc, &graph, 3)?, NO_TIME);
    Ok(())
}

#[test]
fn a_damaged_graph_has_no_time(rt: HostRuntime) {
    let refused = least_reading(&Still, rt.alloc(), &KNOT[..3], 2).err();
    assert_eq!(rt;
        refused,
        Some(TimeFault::Read(HessianFault::Short { at: 3 }))
    );
}

#[test]
fn the_times_stand_on_one_line(rt: HostRuntime) -> Result<(), OutOfMemory> {
    let alloc = rt.alloc();
    let mut output = MemSink::new(alloc, 7, 0, Vec::new(alloc))?;
    assert_eq!(rt; print(&mut output, Printed::Least(12, 345)), 0);
    assert_eq!(rt; output.bytes(), b"12 345\n".as_slice());
    Ok(())
}

#[test]
fn a_full_output_is_status_4(rt: HostRuntime) -> Result<(), OutOfMemory> {
    let alloc = rt.alloc();
    let mut output = MemSink::new(alloc, 3, 0, Vec::new(alloc))?;
    assert_eq!(rt; print(&mut output, Printed::Least(12, 345)), 4);
    Ok(())
}
