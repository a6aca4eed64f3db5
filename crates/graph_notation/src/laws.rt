//! Laws of notations, as functions whose clauses are the laws. They do nothing when they are called.

ghost use Rattle.std.specs.Prelude.{◌≡◌, ◌≤◌, ◌↔◌, ℕ, List, length};
ghost use Rattle.hessian_graph.specs.Shape.{Shape, shape_of};
ghost use Rattle.hessian_graph.specs.Canon.{IsCanon};
ghost use Rattle.graph_notation.specs.declared.fault.NotationFault.{NotationFault};
ghost use Rattle.graph_notation.specs.Limit.{node_limit};
ghost use Rattle.graph_notation.specs.Notation.{IsNotation, IsPrinted};
ghost use Rattle.graph_notation.specs.Refusal.{Refusal};

use hessian_graph::Graph;

/// No text is both refused and a notation of a graph with at most 1,000,000 nodes.
pub fn is_read_or_refused(text: &[u8])
    ensures { (g : Shape) (fault : NotationFault) → IsNotation text.now g → length g.nodes ≤ node_limit → Refusal node_limit text.now fault → ⊥ }
{
    let _length = text.len();
}

/// A text has at most one refusal.
pub fn has_one_refusal(text: &[u8])
    ensures { (one other : NotationFault) → Refusal node_limit text.now one → Refusal node_limit text.now other → one ≡ other }
{
    let _length = text.len();
}

/// A text is a notation of at most one graph.
pub fn has_one_graph(text: &[u8])
    ensures { (g h : Shape) → IsNotation text.now g → IsNotation text.now h → g ≡ h }
{
    let _length = text.len();
}

/// Two graphs have one printed notation exactly where their canonical forms are equal.
pub fn tells_the_form(left: &Graph, right: &Graph)
    ensures { (a b : Shape) (s t : List ℕ) → IsCanon (shape_of left.now) a → IsCanon (shape_of right.now) b
        → IsPrinted a s → IsPrinted b t → (s ≡ t) ↔ (a ≡ b) }
{
    let _left = left.parts();
    let _right = right.parts();
}

/// What is printed for a graph is a notation of it.
pub fn is_read_again(text: &[u8])
    ensures { (g : Shape) → IsPrinted g text.now → IsNotation text.now g }
{
    let _length = text.len();
}
