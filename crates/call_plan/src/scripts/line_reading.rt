//! The lines of a script, taken one at a time.

ghost use Rattle.std.specs.Prelude.{◌≡◌, ◌≢◌, ◌⊎◌, ◌<◌, ◌^◌, ◌↔◌, length, IsTrue, OnOk, IfErr, All};
ghost use Rattle.call_plan.specs.LineForms.{BeginsCall, IsSkipped};
ghost use Rattle.call_plan.specs.Progress.{RefusesCall, RefusesService, Takes, TakesCall, TakesService};
ghost use Rattle.call_plan.specs.ScriptLines.{RefusesLine};
ghost use Rattle.call_plan.specs.Size.{IsReady};

use super::call_lines::read_call;
use super::service_lines::read_service;
use crate::calls::Call;
use crate::fault::ScriptFault;
use service_table::{AddFault, Services};
use std::alloc::Global;

/// The most calls that a script may have.
pub const CALL_LIMIT: usize = 4096;

/// Takes one line more, which has this number, or says why it can't stand behind those that came.
pub fn take_line(
    alloc: Global,
    services: &mut Services,
    calls: &mut Vec<Call>,
    number: u32,
    line: &[u8],
) -> Result<(), ScriptFault>
    requires short { length line.now < 2 ^ 31 }
    requires few { length services.old < 2 ^ 31 }
    ensures taken { OnOk result (Takes services.old calls.old.items number line.now services.new calls.new.items) }
    ensures ready { OnOk result (All IsReady calls.old.items → All IsReady calls.new.items) }
    ensures refused { IfErr result (RefusesLine services.old calls.old.items number line.now) }
{
    if is_skipped(line) {
        Ok(())
    } else if begins_call(line) {
        take_call(alloc, calls, number, line)
    } else {
        take_service(alloc, services, number, line)
    }
}

/// Whether the line is empty or a comment.
fn is_skipped(line: &[u8]) -> bool
    ensures { IsTrue result ↔ IsSkipped line.now }
{
    matches!(line, [] | [b'#', ..])
}

/// Whether the line's first word is `call`.
fn begins_call(line: &[u8]) -> bool
    ensures { IsTrue result ↔ BeginsCall line.now }
{
    match line.strip_prefix(b"call".as_slice()) {
        Some([]) => true,
        Some([b' ', ..]) => true,
        _ => false,
    }
}

/// Takes a line whose first word is `call`.
fn take_call(
    alloc: Global,
    calls: &mut Vec<Call>,
    number: u32,
    line: &[u8],
) -> Result<(), ScriptFault>
    requires short { length line.now < 2 ^ 31 }
    requires begins { BeginsCall line.now }
    ensures taken { OnOk result (TakesCall calls.old.items number line.now calls.new.items) }
    ensures ready { OnOk result (All IsReady calls.old.items → All IsReady calls.new.items) }
    ensures refused { IfErr result (RefusesCall calls.old.items number line.now) }
{
    if calls.len() >= CALL_LIMIT {
        return Err(ScriptFault::TooManyCalls { line: number });
    }
    match read_call(alloc, number, line)? {
        Some(call) => {
            calls.push(call)?;
            Ok(())
        }
        None => Err(ScriptFault::BadLine { line: number }),
    }
}

/// Takes a line that says something and whose first word isn't `call`.
fn take_service(
    alloc: Global,
    services: &mut Services,
    number: u32,
    line: &[u8],
) -> Result<(), ScriptFault>
    requires few { length services.old < 2 ^ 31 }
    ensures taken { OnOk result (TakesService services.old line.now services.new) }
    ensures refused { IfErr result (RefusesService services.old number line.now) }
{
    let Some(row) = read_service(alloc, line)? else {
        return Err(ScriptFault::BadLine { line: number });
    };
    match services.add(row) {
        Ok(()) => Ok(()),
        Err(fault) => Err(fault_of(fault, number)),
    }
}

/// What the refusal of a service means for its line.
fn fault_of(fault: AddFault, number: u32) -> ScriptFault
    ensures { (result ≡ ScriptFault.OutOfMemory) ⊎ ((fault ≢ AddFault.OutOfMemory) × (result ≡ ScriptFault.BadLine number)) }
{
    match fault {
        AddFault::OutOfMemory => ScriptFault::OutOfMemory,
        _ => ScriptFault::BadLine { line: number },
    }
}
