//! The command `direct`: the calls of a script, each made by itself with no link.
ghost use Rattle.std.specs.Prelude.{◌≡◌, ◌≢◌, ◌≤◌, length, IfOk};
ghost use Rattle.dubbo_main.specs.Directing.{DirectAnswers};
ghost use Rattle.dubbo_main.specs.FaultLines.{script_line};
ghost use Rattle.dubbo_main.specs.PlainCommands.{status_of, text_of};

use super::Answer;
use crate::fault_line::refused_script;
use crate::input::INPUT_LIMIT;
use call_plan::{Script, ScriptFault, direct};
use std::alloc::{AllocError, Global};

/// The lines of the calls of the script that the input is, one for each call in order.
pub fn answer_direct(alloc: Global, input: &[u8]) -> Result<Answer, AllocError>
    requires { length input.now ≤ INPUT_LIMIT }
    ensures { IfOk result (λ answer. DirectAnswers input.now (status_of answer) (text_of answer)) }
{
    match Script::read(alloc, input) {
        Ok(script) => Ok(Answer::Done(direct(alloc, &script)?)),
        Err(fault) => refused(alloc, fault),
    }
}

/// The answer to bytes that are no script.
fn refused(alloc: Global, fault: ScriptFault) -> Result<Answer, AllocError>
    ensures cause { IfOk result (λ answer. fault ≢ ScriptFault.OutOfMemory) }
    ensures status { IfOk result (λ answer. status_of answer ≡ 2) }
    ensures line { IfOk result (λ answer. text_of answer ≡ script_line fault) }
{
    match refused_script(fault) {
        Some(line) => Ok(Answer::Refused(line.as_bytes().to_vec(alloc)?)),
        None => Err(AllocError),
    }
}
