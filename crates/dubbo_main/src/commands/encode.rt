//! The command `encode`: from the notation of a graph to its bytes.
ghost use Rattle.std.specs.Prelude.{◌≡◌, ◌≢◌, IfOk};
ghost use Rattle.hessian_graph.specs.Shape.{shape_of};
ghost use Rattle.hessian_graph.specs.Forms.{Written};
ghost use Rattle.hessian_writer.specs.Leaves.{hessian, hessian_forms};
ghost use Rattle.dubbo_main.specs.Encoding.{EncodeAnswers, IsTextOf};
ghost use Rattle.dubbo_main.specs.FaultTexts.{damage_line, notation_text};
ghost use Rattle.dubbo_main.specs.PlainCommands.{status_of, text_of};

use super::Answer;
use crate::damage_line::notation_damage;
use graph_notation::{NotationFault, read_notation};
use hessian_graph::Graph;
use hessian_writer::{is_writable, write_graph};
use std::alloc::{AllocError, Global};
use std::mem::forget;

/// The bytes of the graph that the input is the notation of, with or without one line end behind it.
pub fn answer_encode(alloc: Global, input: &[u8]) -> Result<Answer, AllocError>
    ensures { IfOk result (λ answer. EncodeAnswers input.now (status_of answer) (text_of answer)) }
{
    match read_notation(alloc, without_line_end(input)) {
        Ok(graph) => written(alloc, graph),
        Err(fault) => refused(alloc, fault),
    }
}

/// The text of an input.
fn without_line_end(input: &[u8]) -> &[u8]
    ensures { IsTextOf input.now result.now }
{
    match input {
        [text @ .., b'\n'] => text,
        _ => input,
    }
}

/// The bytes of a graph.
///
/// An input is too short for a graph that can't be written, so the test only stands where no contract says so.
///
/// The program ends with its answer and gives all memory back at once, so the graph isn't given back node by node.
fn written(alloc: Global, graph: Graph) -> Result<Answer, AllocError>
    ensures status { IfOk result (λ answer. status_of answer ≡ 0) }
    ensures bytes { IfOk result (λ answer. Written hessian hessian_forms (shape_of graph) (text_of answer)) }
{
    if !is_writable(&graph) {
        return Err(AllocError);
    }
    let bytes = write_graph(alloc, &graph)?;
    forget(graph);
    Ok(Answer::Done(bytes))
}

/// The answer to a text that is no notation.
fn refused(alloc: Global, fault: NotationFault) -> Result<Answer, AllocError>
    ensures cause { IfOk result (λ answer. fault ≢ NotationFault.OutOfMemory) }
    ensures status { IfOk result (λ answer. status_of answer ≡ 8) }
    ensures line { IfOk result (λ answer. text_of answer ≡ damage_line (notation_text fault)) }
{
    match notation_damage(fault) {
        Some(line) => Ok(Answer::Damaged(line.as_bytes().to_vec(alloc)?)),
        None => Err(AllocError),
    }
}
