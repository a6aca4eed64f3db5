//! The lines of a transcript.

ghost use Rattle.std.specs.Prelude.{◌≡◌, ◌++◌, IfOk, OnOk, decimal};
ghost use Rattle.call_plan.specs.ResultLine.{Appends, IsLine, Tells, TellsGraph, fault_words, ignored, status_words};

use crate::calls::{CallResult, Mode};
use graph_notation::{print_graph, write_text};
use hessian_graph::{Chars, Graph, OutOfMemory};
use itoa::Buffer;
use std::alloc::Global;

/// The line of call number `k`, counted from 0: how the call ended, and a line feed.
///
/// Under `Failsafe` a status, a timeout, a loss and damage have `ignored` before them.
pub fn print_line(
    alloc: Global,
    k: u32,
    mode: Mode,
    outcome: &CallResult,
) -> Result<Vec<u8>, OutOfMemory>
    ensures { IfOk result (λ line. IsLine k mode outcome.now line.items) }
{
    let mut line = Vec::new(alloc);
    push_number(&mut line, u64::from(k))?;
    line.push(b' ')?;
    push_result(alloc, &mut line, mode, outcome)?;
    line.push(b'\n')?;
    Ok(line)
}

/// Appends the words of a result.
fn push_result(
    alloc: Global,
    out: &mut Vec<u8>,
    mode: Mode,
    outcome: &CallResult,
) -> Result<(), OutOfMemory>
    ensures { OnOk result (Appends (Tells mode outcome.now) out.old.items out.new.items) }
{
    match outcome {
        CallResult::Value(graph) => push_graph(alloc, out, b"ok ", graph),
        CallResult::Threw(graph) => push_graph(alloc, out, b"threw ", graph),
        CallResult::Status { code, text } => push_status(out, mode, *code, text),
        CallResult::Timeout { deadline, moment } => {
            push_fault(out, mode, b"timeout ", *deadline, *moment)
        }
        CallResult::Lost { link, faults } => {
            push_fault(out, mode, b"lost ", u64::from(*link), *faults)
        }
        CallResult::Broken { link, at } => {
            push_fault(out, mode, b"broken ", u64::from(*link), *at)
        }
        CallResult::Sent => out.extend_from_slice(b"sent"),
        CallResult::NoMemory => out.extend_from_slice(b"nomem"),
    }
}

/// Appends a word and the notation of a graph.
fn push_graph(
    alloc: Global,
    out: &mut Vec<u8>,
    word: &[u8],
    graph: &Graph,
) -> Result<(), OutOfMemory>
    ensures { OnOk result (Appends (TellsGraph word.now graph.now) out.old.items out.new.items) }
{
    let notation = print_graph(alloc, graph)?;
    out.extend_from_slice(word)?;
    out.extend_from_slice(&notation)
}

/// Appends a status and its text.
fn push_status(out: &mut Vec<u8>, mode: Mode, code: u8, text: &Chars) -> Result<(), OutOfMemory>
    ensures { OnOk result (out.new.items ≡ out.old.items ++ status_words mode code text.now) }
{
    push_ignored(out, mode)?;
    out.extend_from_slice(b"status ")?;
    push_number(out, u64::from(code))?;
    out.push(b' ')?;
    write_text(out, text.as_str())
}

/// Appends a fault with its two numbers.
fn push_fault(
    out: &mut Vec<u8>,
    mode: Mode,
    word: &[u8],
    first: u64,
    second: u64,
) -> Result<(), OutOfMemory>
    ensures { OnOk result (out.new.items ≡ out.old.items ++ fault_words mode word.now first second) }
{
    push_ignored(out, mode)?;
    out.extend_from_slice(word)?;
    push_number(out, first)?;
    out.push(b' ')?;
    push_number(out, second)
}

/// Appends what stands before a fault.
fn push_ignored(out: &mut Vec<u8>, mode: Mode) -> Result<(), OutOfMemory>
    ensures { OnOk result (out.new.items ≡ out.old.items ++ ignored mode) }
{
    match mode {
        Mode::Failsafe => out.extend_from_slice(b"ignored "),
        Mode::Failover | Mode::Failfast | Mode::Forking | Mode::Oneway => Ok(()),
    }
}

/// Appends a number in decimal.
fn push_number(out: &mut Vec<u8>, number: u64) -> Result<(), OutOfMemory>
    ensures { OnOk result (out.new.items ≡ out.old.items ++ decimal number) }
{
    let mut buffer = Buffer::new();
    out.extend_from_slice(buffer.format(number).as_bytes())
}
