//! Rounds of reading and of writing.

ghost use Rattle.std.specs.Prelude.{◌≡◌, ◌≢◌, IfOk, IfErr, length};
ghost use Rattle.hessian_graph.specs.Shape.{shape_of};
ghost use Rattle.hessian_graph.specs.Forms.{Written};
ghost use Rattle.hessian_reader.specs.Leaves.{IsDenoted};
ghost use Rattle.hessian_reader.specs.Refusing.{IsRefusedBy};
ghost use Rattle.hessian_writer.specs.Leaves.{hessian, hessian_forms};
ghost use Rattle.hessian_writer.specs.Writable.{IsWritable};

use hessian_graph::Graph;
use hessian_reader::{HessianFault, read_graph};
use hessian_writer::{is_writable, write_graph};
use std::alloc::Global;
use thiserror::Error;

/// Why a graph isn't written.
#[derive(Clone, Copy, Debug, PartialEq, Eq, Error)]
pub enum WriteFault {
    /// It has too many nodes, or a list of it too many values, to be written.
    #[error("the graph is too large to be written")]
    TooLarge,
    /// No memory.
    #[error("out of memory")]
    OutOfMemory,
}

/// Reads the graph of these bytes so many times, at least once, and answers the last reading.
pub fn read_rounds(alloc: Global, bytes: &[u8], rounds: u32) -> Result<Graph, HessianFault>
    ensures read { IfOk result (λ g. IsDenoted bytes.now (shape_of g) × (length g.roots ≡ 1)) }
    ensures refused { IfErr result (λ fault. fault ≢ HessianFault.OutOfMemory → IsRefusedBy 1 bytes.now fault) }
{
    for _ in 1..rounds {
        read_graph(alloc, bytes, 1)?;
    }
    read_graph(alloc, bytes, 1)
}

/// Writes a graph so many times, at least once, and answers the last writing.
pub fn write_rounds(alloc: Global, graph: &Graph, rounds: u32) -> Result<Vec<u8>, WriteFault>
    ensures written { IfOk result (λ bytes. Written hessian hessian_forms (shape_of graph.now) bytes.items) }
    ensures refused { IfErr result (λ fault. fault ≢ WriteFault.OutOfMemory → ¬ IsWritable (shape_of graph.now)) }
{
    if !is_writable(graph) {
        return Err(WriteFault::TooLarge);
    }
    for _ in 1..rounds {
        write_once(alloc, graph)?;
    }
    write_once(alloc, graph)
}

/// Writes a graph that can be written.
fn write_once(alloc: Global, graph: &Graph) -> Result<Vec<u8>, WriteFault>
    requires { IsWritable (shape_of graph.now) }
    ensures written { IfOk result (λ bytes. Written hessian hessian_forms (shape_of graph.now) bytes.items) }
    ensures memory { IfErr result (λ fault. fault ≡ WriteFault.OutOfMemory) }
{
    match write_graph(alloc, graph) {
        Ok(bytes) => Ok(bytes),
        Err(_) => Err(WriteFault::OutOfMemory),
    }
}
