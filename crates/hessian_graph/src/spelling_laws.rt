//! Laws of spellings, as functions whose clauses are the laws. They do nothing when they are called.

ghost use Rattle.std.specs.Prelude.{◌≡◌, ℕ, List, [], length};
ghost use Rattle.hessian_graph.specs.declared.value.Value.{Value};
ghost use Rattle.hessian_graph.specs.Shape.{Shape};
ghost use Rattle.hessian_graph.specs.Reading.{Includes, Leaves, OneSpelling, Tables};
ghost use Rattle.hessian_graph.specs.Spells.{Denotes, SpellsAll};
ghost use Rattle.hessian_graph.specs.Forms.{WritesAll, Written};
ghost use Rattle.hessian_graph.specs.Line.{Line, values_then};
ghost use Rattle.hessian_graph.specs.Loose.{LooselySpells};

/// The relations that say how scalars, texts and byte lists are spelled.
///
/// The laws hold of any such relations. A crate that knows them names its own by an `impl`.
pub trait LeafSpellings {
    /// The relations.
    ghost leaves: { Leaves };
}

/// Values are spelled one after another exactly where they are spelled from left to right, element by element.
pub fn is_spelled_from_left_to_right<L: LeafSpellings>()
    ensures line { (g : Shape) → (vs : List Value) → (t u : Tables) → (bytes : List ℕ)
        → SpellsAll L.leaves g vs t u bytes → Line L.leaves g t (values_then vs []) u bytes }
    ensures tree { (g : Shape) → (vs : List Value) → (t u : Tables) → (bytes : List ℕ)
        → Line L.leaves g t (values_then vs []) u bytes → SpellsAll L.leaves g vs t u bytes }
{}

/// What stands in the writer's forms is a spelling, where the writer's leaves are spellings.
pub fn is_spelled_where_written<L: LeafSpellings, W: LeafSpellings>()
    ensures { Includes L.leaves W.leaves → (g : Shape) → (vs : List Value) → (t u : Tables) → (bytes : List ℕ)
        → WritesAll W.leaves g vs t u bytes → SpellsAll L.leaves g vs t u bytes }
{}

/// Bytes that denote a graph are a loose spelling of as many values as it has roots.
pub fn is_loose_where_denoted<L: LeafSpellings>()
    ensures { (bound : ℕ) → (bytes : List ℕ) → (g : Shape)
        → Denotes L.leaves bound bytes g → LooselySpells L.leaves bound (length g.roots) bytes }
{}

/// For a graph at most one list of bytes is written, where the writer has one form for each leaf.
pub fn has_one_written_form<L: LeafSpellings, W: LeafSpellings>()
    ensures { OneSpelling W.leaves → (g : Shape) → (a b : List ℕ)
        → Written L.leaves W.leaves g a → Written L.leaves W.leaves g b → a ≡ b }
{}
