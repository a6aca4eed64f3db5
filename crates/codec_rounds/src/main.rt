//! Reads or writes one graph in rounds, so that the library alone can be measured: no start of a process, no input and no notation.
//!
//! `codec_rounds read|write ROUNDS [least] < BYTES` takes the Hessian 2 bytes of one value. It prints how many nodes the last reading gave or how
//! many bytes the last writing; with `least`, how many nanoseconds of processor time the least round took until its answer was there, and how many
//! the least took until the memory of the answer was given back too. Status 1: other words, an input that fails or is no graph, or a clock that
//! fails; 4: the output failed.
#![tactic(auto)]

mod least;
mod rounds;
mod words;

use crate::least::{RoundTime, least_reading, least_writing};
use crate::rounds::{read_rounds, write_rounds};
use crate::words::{Action, Rounds, Show, given, rounds_of};
use dubbo_io::{Sink, StdSink, StdSource, read_all, write_all};
use itoa::Buffer;
use std::alloc::Global;
use std::process::ExitCode;
use std::time::{CpuClock, Duration};

#[cfg(test)]
mod tests;

/// The most bytes of a graph.
const INPUT_LIMIT: usize = 16_777_216;

/// How many nodes or bytes the last round gave.
fn size(alloc: Global, rounds: Rounds, bytes: &[u8]) -> Option<usize> {
    match rounds.action {
        Action::Read => {
            let graph = read_rounds(alloc, bytes, rounds.count).ok()?;
            Some(graph.parts().nodes.as_slice().len())
        }
        Action::Write => {
            let graph = read_rounds(alloc, bytes, 1).ok()?;
            let written = write_rounds(alloc, &graph, rounds.count).ok()?;
            Some(written.len())
        }
    }
}

/// The times of the least rounds.
fn shortest<C: CpuClock>(
    clock: &C,
    alloc: Global,
    rounds: Rounds,
    bytes: &[u8],
) -> Option<RoundTime> {
    match rounds.action {
        Action::Read => least_reading(clock, alloc, bytes, rounds.count).ok(),
        Action::Write => {
            let graph = read_rounds(alloc, bytes, 1).ok()?;
            least_writing(clock, alloc, &graph, rounds.count).ok()
        }
    }
}

/// What is printed.
enum Printed {
    /// How many nodes or bytes the last round gave.
    Size(u64),
    /// How many nanoseconds the least rounds took: until the answer, and until its memory was given back.
    Least(u64, u64),
}

/// A time in nanoseconds, where 64 bits hold it.
fn nanoseconds(time: Duration) -> Option<u64> {
    u64::try_from(time.as_nanos()).ok()
}

/// What the rounds give.
fn outcome<C: CpuClock>(clock: &C, alloc: Global, rounds: Rounds, bytes: &[u8]) -> Option<Printed> {
    match rounds.show {
        Show::Size => Some(Printed::Size(size(alloc, rounds, bytes)? as u64)),
        Show::Least => {
            let least = shortest(clock, alloc, rounds, bytes)?;
            let answered = nanoseconds(least.answered)?;
            let given_back = nanoseconds(least.given_back)?;
            Some(Printed::Least(answered, given_back))
        }
    }
}

/// Writes a number and a line end, and answers the status.
fn print_number<O: Sink>(output: &mut O, number: u64) -> u8
    requires { (O.state output.old).open_to_all }
{
    let mut buffer = Buffer::new();
    let digits = buffer.format(number).as_bytes();
    if write_all(output, digits).is_err() || write_all(output, b"\n").is_err() {
        return 4;
    }
    0
}

/// Writes what is printed, its numbers on one line, and answers the status.
fn print<O: Sink>(output: &mut O, printed: Printed) -> u8
    requires { (O.state output.old).open_to_all }
{
    match printed {
        Printed::Size(number) => print_number(output, number),
        Printed::Least(answered, given_back) => {
            let mut buffer = Buffer::new();
            let digits = buffer.format(answered).as_bytes();
            if write_all(output, digits).is_err() || write_all(output, b" ").is_err() {
                return 4;
            }
            print_number(output, given_back)
        }
    }
}

fn main(rt: HostRuntime) -> ExitCode {
    let alloc = rt.alloc();
    let mut input = StdSource::new(rt.stdin());
    let mut output = StdSink::new(rt.stdout());
    let Some(rounds) = given(&rt, alloc).and_then(|words| rounds_of(&words)) else {
        return ExitCode::from(1);
    };
    let Ok(bytes) = read_all(alloc, &mut input, INPUT_LIMIT) else {
        return ExitCode::from(1);
    };
    let Some(printed) = outcome(&rt, alloc, rounds, bytes.as_slice()) else {
        return ExitCode::from(1);
    };
    ExitCode::from(print(&mut output, printed))
}
