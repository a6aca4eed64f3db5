//! What holds of all bytes. A law is a function without work: its clause is the law.

ghost use Rattle.std.specs.Prelude.{◌≡◌, ◌≢◌, ◌++◌, ℕ, List, [], length};
ghost use Rattle.hessian_graph.specs.Shape.{Shape};
ghost use Rattle.hessian_graph.specs.Refusal.{Cause, Refusal, Short};
ghost use Rattle.hessian_text.specs.Spelling.{AreBytes};
ghost use Rattle.hessian_reader.specs.Faults.{faults};
ghost use Rattle.hessian_reader.specs.Leaves.{IsDenoted, hessian, node_limit};

/// Bytes denote at most one graph.
pub fn bytes_denote_one_graph()
    ensures { (bytes : List ℕ) (g h : Shape) → AreBytes bytes → IsDenoted bytes g → IsDenoted bytes h → g ≡ h }
{}

/// Bytes that denote a graph with so many roots aren't refused.
pub fn no_graph_is_refused()
    ensures { (roots : ℕ) (bytes : List ℕ) (g : Shape) (cause : Cause) → IsDenoted bytes g → length g.roots ≡ roots
        → Refusal hessian faults node_limit roots bytes cause → ⊥ }
{}

/// A refusal stays whatever bytes follow, but for bytes that are cut short.
pub fn a_refusal_stays()
    ensures { (roots : ℕ) (bytes more : List ℕ) (cause : Cause) → cause ≢ Short (length bytes)
        → Refusal hessian faults node_limit roots bytes cause → Refusal hessian faults node_limit roots (bytes ++ more) cause }
{}

/// Where bytes denote a graph, each shorter front of them is refused as cut short, at its end.
pub fn fronts_of_a_graph_are_short()
    ensures { (front more : List ℕ) (g : Shape) → AreBytes (front ++ more) → more ≢ [] → IsDenoted (front ++ more) g
        → Refusal hessian faults node_limit (length g.roots) front (Short (length front)) }
{}

/// Bytes have at most one refusal.
pub fn bytes_have_one_refusal()
    ensures { (roots : ℕ) (bytes : List ℕ) (one other : Cause)
        → Refusal hessian faults node_limit roots bytes one → Refusal hessian faults node_limit roots bytes other → one ≡ other }
{}
