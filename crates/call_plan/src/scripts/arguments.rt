//! The arguments of a call.

ghost use Rattle.std.specs.Prelude.{◌≢◌, ◌<◌, ◌^◌, ℕ, List, length, IfOk, OnOk, IfSome, MatchOption};
ghost use Rattle.hessian_graph.specs.declared.parts.Parts.{Parts as ParsedParts};
ghost use Rattle.hessian_graph.specs.Shape.{shape_of};
ghost use Rattle.hessian_graph.specs.Canon.{IsCanon};
ghost use Rattle.hessian_writer.specs.Writable.{IsWritable};
ghost use Rattle.call_plan.specs.LineForms.{AreArguments, HasField};
ghost use Rattle.call_plan.specs.Pieces.{fields_in};

use dubbo_bodies::count_args;
use graph_notation::{NotationFault, read_notation};
use hessian_graph::Graph;
use std::alloc::{AllocError, Global};

/// The arguments that the last field of a call's line has the notation of: as many roots as the descriptor has parameters.
pub fn arguments(
    alloc: Global,
    desc: &str,
    field: Option<&[u8]>,
) -> Result<Option<Graph>, AllocError>
    requires { IfSome field (λ notation. length notation.now < 2 ^ 31) }
    ensures says { IfOk result (λ args. MatchOption args
        ((count : ℕ) (notation : List ℕ) (p : ParsedParts) → AreArguments desc.now count notation p → ¬ HasField count notation (fields_in field.entry))
        (λ g. (count : ℕ) × (notation : List ℕ) × AreArguments desc.now count notation g × HasField count notation (fields_in field.entry))) }
    ensures ready { IfOk result (λ args. IfSome args (λ g. IsWritable (shape_of g) × IsCanon (shape_of g) (shape_of g))) }
{
    let Ok(count) = count_args(desc.as_bytes()) else {
        return Ok(None);
    };
    let Some(notation) = notation_of(count, field) else {
        return Ok(None);
    };
    match read_notation(alloc, notation) {
        Ok(graph) => {
            if graph.parts().roots.as_slice().len() == count as usize {
                Ok(Some(graph))
            } else {
                Ok(None)
            }
        }
        Err(fault) => {
            unless_memory(fault)?;
            Ok(None)
        }
    }
}

/// Passes want of memory on.
fn unless_memory(fault: NotationFault) -> Result<(), AllocError>
    ensures { OnOk result (fault ≢ NotationFault.OutOfMemory) }
{
    match fault {
        NotationFault::OutOfMemory => Err(AllocError),
        _ => Ok(()),
    }
}

/// The notation of so many arguments, which is empty where there are none.
fn notation_of(count: u32, field: Option<&[u8]>) -> Option<&[u8]>
    requires { IfSome field (λ notation. length notation.now < 2 ^ 31) }
    ensures field { MatchOption result ((notation : List ℕ) → ¬ HasField count notation (fields_in field.entry))
        (λ notation. HasField count notation.now (fields_in field.entry)) }
    ensures short { IfSome result (λ notation. length notation.now < 2 ^ 31) }
{
    match field {
        Some(notation) => { if count > 0 { Some(notation) } else { None } }
        None => {
            if count > 0 {
                None
            } else {
                Some(b"".as_slice())
            }
        }
    }
}
