//! Scripts, read from their bytes.

ghost use Rattle.std.specs.Prelude.{◌≡◌, ◌<◌, ◌^◌, length, IfOk, IfErr};
ghost use Rattle.call_plan.specs.Progress.{IsDraft, IsRefusedEarly};
ghost use Rattle.call_plan.specs.ScriptReading.{IsFitPlan, IsScript, Refuses};

mod arguments;
mod call_lines;
mod cuts;
mod fields;
mod line_reading;
mod numbers;
mod service_lines;
mod sizes;
mod words;

use self::cuts::first_line;
pub use self::line_reading::CALL_LIMIT;
use self::line_reading::take_line;
pub use self::sizes::NODE_LIMIT;
use self::sizes::first_too_large;
use crate::calls::Call;
use crate::fault::ScriptFault;
use service_table::Services;
use std::alloc::Global;
use std::marker::Model;

/// A script: services, and calls. Contracts see the lists of both, in the order of their lines.
#[derive(Drop)]
pub struct Script {
    services: Services,
    calls: Vec<Call>,
}

impl Model for Script {
    ghost use Rattle.call_plan.specs.ScriptReading.{Plan, IsFitPlan};

    ghost Value = { Plan };

    ghost view = { λ s. record { services = s.services; calls = s.calls.items } };

    ghost invariant = { λ s. IsFitPlan (record { services = s.services; calls = s.calls.items }) };
}

/// The services and calls of lines that were read, whatever the size of the calls.
#[derive(Drop)]
struct Draft {
    services: Services,
    calls: Vec<Call>,
}

impl Script {
    /// Reads a script, whose lines each end by a line feed, which the last may lack.
    ///
    /// A line `service PATH VERSION METHOD DESC KIND` names a service, a line `call MODE TIMEOUT RETRIES FORKS PATH VERSION METHOD DESC ARGS` a
    /// call; an empty line and one that begins with `#` say nothing.
    pub fn read(alloc: Global, bytes: &[u8]) -> Result<Script, ScriptFault>
        requires { length bytes.now < 2 ^ 31 }
        ensures ok { IfOk result (IsScript bytes.now) }
        ensures refused { IfErr result (Refuses bytes.now) }
    {
        let draft = read_lines(alloc, bytes)?;
        match first_too_large(alloc, &draft.calls)? {
            Some(line) => Err(ScriptFault::TooLarge { line }),
            None => {
                let Draft { services, calls } = draft;
                Ok(Script { services, calls })
            }
        }
    }

    /// The calls in the order of their lines, 4,096 at most. It takes no memory.
    pub fn calls(&self) -> &[Call]
        ensures all { result.now ≡ self.now.calls }
        ensures fit { IsFitPlan self.now }
    {
        &self.calls
    }

    /// The services in the order of their lines. It takes no memory.
    pub fn services(&self) -> &Services
        ensures { result.now ≡ self.now.services }
    {
        &self.services
    }
}

/// The services and calls of the lines, or the first line that can't stand where it is.
fn read_lines(alloc: Global, bytes: &[u8]) -> Result<Draft, ScriptFault>
    requires { length bytes.now < 2 ^ 31 }
    ensures ok { IfOk result (λ draft. IsDraft bytes.now draft.services draft.calls.items) }
    ensures refused { IfErr result (IsRefusedEarly bytes.now) }
{
    let mut services = Services::new(alloc);
    let mut calls = Vec::new(alloc);
    let mut rest = bytes;
    let mut number = 0;
    while !rest.is_empty() {
        let (line, after) = first_line(rest);
        number += 1;
        match take_line(alloc, &mut services, &mut calls, number, line) {
            Ok(()) => rest = after,
            Err(fault) => return Err(fault),
        }
    }
    Ok(Draft { services, calls })
}
