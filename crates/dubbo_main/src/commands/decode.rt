//! The command `decode`: from the bytes of a graph to its notation.
ghost use Rattle.std.specs.Prelude.{◌≡◌, ◌≢◌, ◌++◌, ◌∷◌, [], List, ℕ, IfOk};
ghost use Rattle.hessian_graph.specs.Shape.{shape_of};
ghost use Rattle.graph_notation.specs.Notation.{PrintsForm};
ghost use Rattle.dubbo_bodies.specs.FaultTexts.{hessian_words};
ghost use Rattle.dubbo_main.specs.Decoding.{DecodeAnswers};
ghost use Rattle.dubbo_main.specs.FaultTexts.{damage_line};
ghost use Rattle.dubbo_main.specs.PlainCommands.{status_of, text_of};

use super::Answer;
use crate::damage_line::hessian_damage;
use graph_notation::print_graph;
use hessian_graph::Graph;
use hessian_reader::{HessianFault, read_graph};
use std::alloc::{AllocError, Global};
use std::mem::forget;

/// The notation of the graph of so many roots that the input denotes, and a line end.
pub fn answer_decode(alloc: Global, input: &[u8], roots: u32) -> Result<Answer, AllocError>
    ensures { IfOk result (λ answer. DecodeAnswers roots input.now (status_of answer) (text_of answer)) }
{
    match read_graph(alloc, input, roots) {
        Ok(graph) => printed(alloc, graph),
        Err(fault) => refused(alloc, fault),
    }
}

/// The notation of a graph, and a line end.
///
/// The program ends with its answer and gives all memory back at once, so the graph isn't given back node by node.
fn printed(alloc: Global, graph: Graph) -> Result<Answer, AllocError>
    ensures status { IfOk result (λ answer. status_of answer ≡ 0) }
    ensures text { IfOk result (λ answer. (notation : List ℕ) × PrintsForm (shape_of graph) notation
        × (text_of answer ≡ notation ++ 10 ∷ [])) }
{
    let mut text = print_graph(alloc, &graph)?;
    text.push(b'\n')?;
    forget(graph);
    Ok(Answer::Done(text))
}

/// The answer to bytes that denote no graph.
fn refused(alloc: Global, fault: HessianFault) -> Result<Answer, AllocError>
    ensures cause { IfOk result (λ answer. fault ≢ HessianFault.OutOfMemory) }
    ensures status { IfOk result (λ answer. status_of answer ≡ 8) }
    ensures line { IfOk result (λ answer. text_of answer ≡ damage_line (hessian_words fault)) }
{
    match hessian_damage(fault) {
        Some(line) => Ok(Answer::Damaged(line.as_bytes().to_vec(alloc)?)),
        None => Err(AllocError),
    }
}
