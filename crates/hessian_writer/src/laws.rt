//! Laws of what is written, as functions whose clauses are the laws.

ghost use Rattle.std.specs.Prelude.{◌≡◌, ◌≤◌, ℕ, List, length};
ghost use Rattle.hessian_graph.specs.Shape.{Shape, shape_of};
ghost use Rattle.hessian_graph.specs.Canon.{IsCanon};
ghost use Rattle.hessian_graph.specs.Spells.{Denotes};
ghost use Rattle.hessian_graph.specs.Forms.{Written};
ghost use Rattle.hessian_graph.specs.Work.{IsClosed};
ghost use Rattle.hessian_writer.specs.Carried.{IsCarried};
ghost use Rattle.hessian_writer.specs.Writable.{IsWritable};
ghost use Rattle.hessian_writer.specs.Leaves.{hessian, hessian_forms};

use crate::carried::graph_is_carried;
use hessian_graph::Graph;

/// A graph that can be written has a written spelling.
///
/// Each value is to be such as its type can hold: an int of 32 bits, a long and a date of 64, a text in UTF-8, and bytes.
pub fn has_some_written_spelling()
    ensures { (g : Shape) → IsClosed g → IsCarried g → IsWritable g → (bytes : List ℕ) × Written hessian hessian_forms g bytes }
{}

/// A graph has at most one written spelling.
pub fn has_one_written_spelling()
    ensures { (g : Shape) → (a b : List ℕ) → Written hessian hessian_forms g a → Written hessian hessian_forms g b → a ≡ b }
{}

/// What is written denotes the canonical form of the graph, where that has no more nodes than a reader takes.
pub fn denotes_the_canonical_form()
    ensures { (bound : ℕ) → (g form : Shape) → (bytes : List ℕ) → Written hessian hessian_forms g bytes → IsCanon g form
        → length form.nodes ≤ bound → Denotes hessian bound bytes form }
{}

/// A graph of the program that can be written has a written spelling: exactly one, by the law above.
///
/// The call goes through the graph, and does nothing else.
pub fn is_written(graph: &Graph)
    requires { IsWritable (shape_of graph.now) }
    ensures { (bytes : List ℕ) × Written hessian hessian_forms (shape_of graph.now) bytes }
{
    graph_is_carried(graph);
}
