//! Laws of the canonical form, as functions whose clauses are the laws. They do nothing when they are called.

ghost use Rattle.std.specs.Prelude.{◌≡◌, ℕ, List, Contains, [], ◌↔◌};
ghost use Rattle.hessian_graph.specs.Shape.{Shape, shape_of};
ghost use Rattle.hessian_graph.specs.Canon.{IsCanon, Visit};
ghost use Rattle.hessian_graph.specs.Reached.{Reached};
ghost use Rattle.hessian_graph.specs.Iso.{Iso};

use crate::graph::Graph;

/// The canonical form keeps exactly the nodes that a root reaches.
pub fn keeps_the_reached_nodes(graph: &Graph)
    ensures { (order : List ℕ) → Visit (shape_of graph.now) [] graph.now.roots order
        → (n : ℕ) → Contains order n ↔ Reached (shape_of graph.now) n }
{
    let _parts = graph.parts();
}

/// Each graph has a canonical form, and only one.
pub fn has_one_canonical_form(graph: &Graph)
    ensures some { (form : Shape) × IsCanon (shape_of graph.now) form }
    ensures one { (a b : Shape) → IsCanon (shape_of graph.now) a → IsCanon (shape_of graph.now) b → a ≡ b }
{
    let _parts = graph.parts();
}

/// Two graphs are isomorphic exactly where their canonical forms are equal.
///
/// Nodes that no root reaches are in no canonical form, and an isomorphism need not pair them.
pub fn isomorphic_where_equal(left: &Graph, right: &Graph)
    ensures { (a b : Shape) → IsCanon (shape_of left.now) a → IsCanon (shape_of right.now) b
        → Iso (shape_of left.now) (shape_of right.now) ↔ a ≡ b }
{
    let _left = left.parts();
    let _right = right.parts();
}

/// The canonical form of a canonical form is itself.
pub fn canonical_form_stays(graph: &Graph, form: &Graph)
    ensures { IsCanon (shape_of graph.now) (shape_of form.now) → IsCanon (shape_of form.now) (shape_of form.now) }
{
    let _graph = graph.parts();
    let _form = form.parts();
}
