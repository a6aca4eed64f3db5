//! The canonical form of a graph.

ghost use Rattle.std.specs.Prelude.{◌<◌, ◌^◌, IfOk, length, IsTrue, ◌↔◌, ◌≡◌};
ghost use Rattle.hessian_graph.specs.Faults.{IsSound};
ghost use Rattle.hessian_graph.specs.Shape.{shape_of};
ghost use Rattle.hessian_graph.specs.Canon.{IsCanon};
ghost use Rattle.hessian_graph.specs.InUse.{InOrderOfUse};
ghost use Rattle.hessian_graph.specs.Iso.{Iso};

use crate::graph::Graph;
use crate::parts::Parts;
use crate::rebuild::rebuild;
use crate::same::same_parts;
use crate::walk::visit;
use std::alloc::{AllocError, Global};

/// The canonical form: the nodes that a root reaches, numbered in the order of a first visit.
///
/// The visit goes depth first from the roots in order, through items in order, and to a key before its value.
/// Types and classes stand in the order of first use, each once.
pub fn canon(alloc: Global, graph: &Graph) -> Result<Graph, AllocError>
    ensures canon { IfOk result (λ form. IsCanon (shape_of graph.now) (shape_of form)) }
    ensures tables { IfOk result InOrderOfUse }
{
    let form = form_of(alloc, graph.parts())?;
    Ok(Graph::from_sound(form))
}

/// The parts of the canonical form of sound parts.
fn form_of(alloc: Global, parts: &Parts) -> Result<Parts, AllocError>
    requires sound { IsSound parts.now }
    requires few { length parts.now.nodes < 2 ^ 32 }
    ensures canon { IfOk result (λ form. IsCanon (shape_of parts.now) (shape_of form)) }
    ensures sound { IfOk result IsSound }
    ensures tables { IfOk result InOrderOfUse }
    ensures few { IfOk result (λ form. length form.nodes < 2 ^ 32) }
{
    let walk = visit(alloc, parts)?;
    let form = rebuild(alloc, parts, &walk)?;
    Ok(form)
}

/// Whether two graphs differ in the numbers of their nodes alone, in the nodes that roots reach.
pub fn same_shape(alloc: Global, left: &Graph, right: &Graph) -> Result<bool, AllocError>
    ensures { IfOk result (λ same. IsTrue same ↔ Iso (shape_of left.now) (shape_of right.now)) }
{
    let _left = left.parts();
    let _right = right.parts();
    let one = canon(alloc, left)?;
    let other = canon(alloc, right)?;
    Ok(same_graph(&one, &other))
}

/// Whether two graphs are equal with the names of types and classes put in.
///
/// Tables in the order of first use are equal then, and so are the numbers of types and classes.
fn same_graph(left: &Graph, right: &Graph) -> bool
    requires left { InOrderOfUse left.now }
    requires right { InOrderOfUse right.now }
    ensures { IsTrue result ↔ (shape_of left.now ≡ shape_of right.now) }
{
    let left = left.parts();
    let right = right.parts();
    same_parts(left, right)
}
