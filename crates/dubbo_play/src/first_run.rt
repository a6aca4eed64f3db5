//! The first link: every call of a script is asked, answered and printed, on one thread.
//!
//! The consumer writes its requests, the provider reads them and writes its replies, and the transcript
//! is printed from the replies that are read back.

ghost use Rattle.std.specs.Prelude.{◌≡◌, ℕ, List, IfOk, OnOk, OnErr};
ghost use Rattle.dubbo_play.specs.FirstForm.{Call, AreCalls};
ghost use Rattle.dubbo_play.specs.FirstFrames.{AreRequests, AreReplies};
ghost use Rattle.dubbo_play.specs.FirstRun.{Adds, Grows};
ghost use Rattle.dubbo_play.specs.FirstTranscript.{transcript};

use crate::first_lines::{print_ok, print_summary};
use crate::first_replies::{read_reply, write_reply};
use crate::first_requests::{read_request, write_request};
use crate::first_script::{FirstCall, FirstScript};
use hessian_scalars::OutOfMemory;
use std::alloc::Global;

/// How far the ids of two calls lie apart: an id is a call's number and, below it, that of an attempt.
const ATTEMPTS: u64 = 16;

/// Runs the calls of a script over one link, whose two directions are the bytes that are appended.
///
/// It gives what is to be printed: a line for each call in order, and the summary.
pub fn first_link(
    alloc: Global,
    script: &FirstScript,
    asks: &mut Vec<u8>,
    answers: &mut Vec<u8>,
) -> Result<Vec<u8>, OutOfMemory>
    ensures asked { OnOk result (Adds (AreRequests script.now) asks.old.items asks.new.items) }
    ensures answered { OnOk result (Adds (AreReplies script.now) answers.old.items answers.new.items) }
    ensures printed { IfOk result (λ printed. printed.items ≡ transcript script.now) }

    // What was there before stays, and more may stand behind it.
    ensures err_asks { OnErr result (Grows asks.old.items asks.new.items) }
    ensures err_answers { OnErr result (Grows answers.old.items answers.new.items) }
{
    let asked = asks.len();
    let answered = answers.len();
    ask_all(alloc, script.calls(), asks)?;
    answer_all(alloc, &asks[asked..], answers)?;
    print_all(alloc, &answers[answered..])
}

/// Appends the request of each call.
fn ask_all(alloc: Global, calls: &[FirstCall], asks: &mut Vec<u8>) -> Result<(), OutOfMemory>
    requires { AreCalls calls.now }
    ensures ok { OnOk result (Adds (AreRequests calls.now) asks.old.items asks.new.items) }
    ensures err { OnErr result (Grows asks.old.items asks.new.items) }
{
    for (number, call) in calls.iter().enumerate() {
        let id = ATTEMPTS * number as u64;
        write_request(alloc, asks, id, call.path(), call.method(), call.argument())?;
    }
    Ok(())
}

/// Answers each request with its own argument, under its id.
fn answer_all(alloc: Global, asks: &[u8], answers: &mut Vec<u8>) -> Result<(), OutOfMemory>
    ensures ok { (calls : List Call) → AreCalls calls → AreRequests calls asks.now
        → OnOk result (Adds (AreReplies calls) answers.old.items answers.new.items) }
    ensures err { OnErr result (Grows answers.old.items answers.new.items) }
{
    let mut at = 0;
    while let Some(request) = read_request(alloc, asks, at)? {
        write_reply(alloc, answers, request.id, request.value)?;
        at = request.end;
    }
    Ok(())
}

/// Prints what each reply says, by the call's number in its id, and how many there were.
fn print_all(alloc: Global, answers: &[u8]) -> Result<Vec<u8>, OutOfMemory>
    ensures { (calls : List Call) → AreCalls calls → AreReplies calls answers.now
        → IfOk result (λ printed. printed.items ≡ transcript calls) }
{
    let mut printed = Vec::new(alloc);
    let mut count = 0;
    let mut at = 0;
    while let Some(reply) = read_reply(answers, at) {
        print_ok(&mut printed, reply.id / ATTEMPTS, reply.value)?;
        count += 1;
        at = reply.end;
    }
    print_summary(&mut printed, count)?;
    Ok(printed)
}

#[cfg(test)]
mod tests;
