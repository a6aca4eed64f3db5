//! The transcript of a script whose calls are made directly.

ghost use Rattle.std.specs.Prelude.{◌≡◌, IfOk};
ghost use Rattle.call_plan.specs.DirectTranscript.{EndsDirectly, IsDirectLine, IsDirectTranscript, result_of};
ghost use Rattle.call_plan.specs.Size.{IsFit};

use crate::calls::{Call, CallResult, Mode};
use crate::lines::print_line;
use crate::scripts::Script;
use dubbo_bodies::Reply;
use hessian_graph::OutOfMemory;
use service_table::{Services, call};
use std::alloc::Global;

/// The transcript of the direct calls: a line for each call of the script, in order.
///
/// Each call is made by itself, with no frame and no link. A one-way call isn't made: its line says that it was sent.
pub fn direct(alloc: Global, script: &Script) -> Result<Vec<u8>, OutOfMemory>
    ensures { IfOk result (λ text. IsDirectTranscript script.now text.items) }
{
    let mut text = Vec::new(alloc);
    let services = script.services();
    let calls = script.calls();
    for (k, call) in calls.iter().enumerate() {
        let line = direct_line(alloc, services, k as u32, call)?;
        text.extend_from_slice(&line)?;
    }
    Ok(text)
}

/// The line of one call.
fn direct_line(
    alloc: Global,
    services: &Services,
    k: u32,
    call: &Call,
) -> Result<Vec<u8>, OutOfMemory>
    requires { IsFit call.now }
    ensures { IfOk result (λ line. IsDirectLine services.now k call.now line.items) }
{
    let outcome = outcome(alloc, services, call)?;
    let line = print_line(alloc, k, call.mode, &outcome)?;
    Ok(line)
}

/// How a call ends that is made directly.
fn outcome(alloc: Global, services: &Services, asked: &Call) -> Result<CallResult, OutOfMemory>
    requires { IsFit asked.now }
    ensures { IfOk result (EndsDirectly services.now asked.now) }
{
    match asked.mode {
        Mode::Oneway => Ok(CallResult::Sent),
        _ => {
            let reply = call(alloc, services, &asked.request)?;
            Ok(result_of(reply))
        }
    }
}

/// How a call ended that got this reply.
fn result_of(reply: Reply) -> CallResult
    ensures { result ≡ result_of reply }
{
    match reply {
        Reply::Value(graph) => CallResult::Value(graph),
        Reply::Threw(graph) => CallResult::Threw(graph),
        Reply::Status { code, text } => CallResult::Status { code, text },
    }
}
