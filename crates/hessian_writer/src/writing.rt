//! Writing a whole graph.

ghost use Rattle.std.specs.Prelude.{IfOk};
ghost use Rattle.hessian_graph.specs.Shape.{shape_of};
ghost use Rattle.hessian_graph.specs.Forms.{Written};
ghost use Rattle.hessian_writer.specs.Leaves.{hessian, hessian_forms};
ghost use Rattle.hessian_writer.specs.Writable.{IsWritable};
ghost use Rattle.hessian_writer.specs.Appending.{Appends};
ghost use Rattle.hessian_writer.specs.Progress.{CanWrite};

use crate::writer::Writer;
use hessian_graph::{Graph, OutOfMemory, Parts};
use std::alloc::Global;

/// The writer's spelling of a graph's roots, one after another, from empty tables. (Hessian 2.0 Serialization Protocol)
///
/// The bytes spell the canonical form of the graph. Where it has more nodes than a reader takes, they are written all the same.
pub fn write_graph(alloc: Global, graph: &Graph) -> Result<Vec<u8>, OutOfMemory>
    requires { IsWritable (shape_of graph.now) }
    ensures { IfOk result (λ bytes. Written hessian hessian_forms (shape_of graph.now) bytes.items) }
{
    let out = Vec::new(alloc);
    write_graph_behind(alloc, out, graph)
}

/// These bytes, and behind them the writer's spelling of a graph, from empty tables.
pub fn write_graph_behind(
    alloc: Global,
    out: Vec<u8>,
    graph: &Graph,
) -> Result<Vec<u8>, OutOfMemory>
    requires { IsWritable (shape_of graph.now) }
    ensures { IfOk result (λ bytes. Appends (Written hessian hessian_forms (shape_of graph.now)) out.items bytes.items) }
{
    write_parts(alloc, out, graph.parts())
}

/// The same of the parts of a graph.
fn write_parts(alloc: Global, out: Vec<u8>, parts: &Parts) -> Result<Vec<u8>, OutOfMemory>
    requires { CanWrite parts.now }
    ensures { IfOk result (λ bytes. Appends (Written hessian hessian_forms (shape_of parts.now)) out.items bytes.items) }
{
    let mut writer = Writer::new(alloc, parts, out)?;
    for root in parts.roots.as_slice() {
        writer.root(alloc, parts, root)?;
    }
    Ok(writer.out)
}
