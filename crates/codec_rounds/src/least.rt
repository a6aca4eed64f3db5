//! The least processor time that one round takes, until its answer is there and until its memory is given back.

ghost use Rattle.std.specs.Prelude.{◌≡◌, ◌≢◌, IfErr};
ghost use Rattle.hessian_graph.specs.Shape.{shape_of};
ghost use Rattle.hessian_reader.specs.declared.fault.HessianFault.{HessianFault as Faults};
ghost use Rattle.hessian_reader.specs.Refusing.{IsRefusedBy};
ghost use Rattle.hessian_writer.specs.Writable.{IsWritable};

use crate::rounds::{WriteFault, read_rounds, write_rounds};
use hessian_graph::Graph;
use hessian_reader::HessianFault;
use std::alloc::Global;
use std::time::{CpuClock, Duration};
use thiserror::Error;

/// Why a time isn't told.
#[derive(Clone, Copy, Debug, PartialEq, Eq, Error)]
pub enum TimeFault {
    /// The clock fails.
    #[error("the clock fails")]
    Clock,
    /// The bytes aren't read.
    #[error("{0}")]
    Read(HessianFault),
    /// The graph isn't written.
    #[error("{0}")]
    Write(WriteFault),
}

/// The processor time of a round, or the least of several.
#[derive(Clone, Copy, Debug, PartialEq, Eq)]
pub struct RoundTime {
    /// Until its answer is there.
    pub answered: Duration,
    /// Until the memory of the answer is given back too.
    pub given_back: Duration,
}

impl RoundTime {
    /// Each time between these moments of a clock.
    fn between(start: Duration, answer: Duration, end: Duration) -> RoundTime {
        RoundTime {
            answered: answer.saturating_sub(start),
            given_back: end.saturating_sub(start),
        }
    }

    /// The lesser of two, each time by itself.
    fn least(self, other: RoundTime) -> RoundTime {
        RoundTime {
            answered: self.answered.min(other.answered),
            given_back: self.given_back.min(other.given_back),
        }
    }
}

/// The processor time that this thread has used.
fn now<C: CpuClock>(clock: &C) -> Result<Duration, TimeFault>
    ensures { IfErr result (λ fault. fault ≡ TimeFault.Clock) }
{
    match clock.thread_cpu_time() {
        Ok(time) => Ok(time),
        Err(_) => Err(TimeFault::Clock),
    }
}

/// The time of one reading.
fn reading_time<C: CpuClock>(clock: &C, alloc: Global, bytes: &[u8]) -> Result<RoundTime, TimeFault>
    ensures { IfErr result (λ fault. (cause : Faults) → fault ≡ TimeFault.Read cause → cause ≢ HessianFault.OutOfMemory → IsRefusedBy 1 bytes.now cause) }
{
    let start = now(clock)?;
    let graph = match read_rounds(alloc, bytes, 1) {
        Ok(graph) => graph,
        Err(fault) => return Err(TimeFault::Read(fault)),
    };
    let answer = now(clock)?;
    drop(graph);
    let end = now(clock)?;
    Ok(RoundTime::between(start, answer, end))
}

/// The least times of so many readings of these bytes, at least one.
pub fn least_reading<C: CpuClock>(
    clock: &C,
    alloc: Global,
    bytes: &[u8],
    rounds: u32,
) -> Result<RoundTime, TimeFault>
    ensures { IfErr result (λ fault. (cause : Faults) → fault ≡ TimeFault.Read cause → cause ≢ HessianFault.OutOfMemory → IsRefusedBy 1 bytes.now cause) }
{
    let mut least = reading_time(clock, alloc, bytes)?;
    for _ in 1..rounds {
        least = least.least(reading_time(clock, alloc, bytes)?);
    }
    Ok(least)
}

/// The time of one writing.
fn writing_time<C: CpuClock>(
    clock: &C,
    alloc: Global,
    graph: &Graph,
) -> Result<RoundTime, TimeFault>
    ensures { IfErr result (λ fault. fault ≡ TimeFault.Write WriteFault.TooLarge → ¬ IsWritable (shape_of graph.now)) }
{
    let start = now(clock)?;
    let bytes = match write_rounds(alloc, graph, 1) {
        Ok(bytes) => bytes,
        Err(fault) => return Err(TimeFault::Write(fault)),
    };
    let answer = now(clock)?;
    drop(bytes);
    let end = now(clock)?;
    Ok(RoundTime::between(start, answer, end))
}

/// The least times of so many writings of a graph, at least one.
pub fn least_writing<C: CpuClock>(
    clock: &C,
    alloc: Global,
    graph: &Graph,
    rounds: u32,
) -> Result<RoundTime, TimeFault>
    ensures { IfErr result (λ fault. fault ≡ TimeFault.Write WriteFault.TooLarge → ¬ IsWritable (shape_of graph.now)) }
{
    let mut least = writing_time(clock, alloc, graph)?;
    for _ in 1..rounds {
        least = least.least(writing_time(clock, alloc, graph)?);
    }
    Ok(least)
}
