//! A reader of graphs that takes its bytes in pieces.

ghost use Rattle.std.specs.Prelude.{◌≡◌, ◌≢◌, ℕ, ◌+◌, ◌≤◌, ◌++◌, List, [], length, take, Some, None, Err, IfOk, IfErr};
ghost use Rattle.hessian_reader.specs.Course.{Known};

use crate::course::Course;
use crate::fault::HessianFault;
use hessian_graph::Graph;
use std::alloc::Global;

/// What a piece did.
#[derive(Clone, Copy, Debug, PartialEq, Eq)]
pub enum Fed {
    /// The last root hasn't ended.
    More,
    /// The last root has ended.
    Done {
        /// Behind so many bytes of this piece; 0 where it had ended before.
        used: usize,
    },
}

/// Reads the values of a graph from bytes that come in any pieces.
///
/// It is known by the number of roots that are wanted and by the bytes that were fed; a refusal stays.
#[derive(Drop)]
pub struct GraphReader {
    course: Course,
    ghost known: { ∥ Known course ∥₁ },
}

impl GraphReader {
    ghost use Rattle.hessian_graph.specs.Shape.{shape_of};
    ghost use Rattle.hessian_reader.specs.declared.fault.HessianFault.{HessianFault as Faults};
    ghost use Rattle.hessian_reader.specs.Leaves.{IsDenoted};
    ghost use Rattle.hessian_reader.specs.Reading.{EndsAt, HasRead, NeverEnds, Tells, fed_in_all, refusal_of};
    ghost use Rattle.hessian_reader.specs.Refusing.{IsRefusedBy, IsStoppedBy};

    /// A reader of so many roots, to which nothing was fed.
    pub fn new(alloc: Global, roots: u32) -> GraphReader
        ensures begins { HasRead result roots [] }
        ensures none { fed_in_all result ≡ 0 }
        ensures serves { refusal_of result ≡ None }
    {
        GraphReader {
            course: Course::new(alloc, roots),
        }
    }

    /// Takes the next bytes, up to the end of the last root.
    ///
    /// After a refusal each later call gives the same one.
    pub fn feed(&mut self, piece: &[u8]) -> Result<Fed, HessianFault>
        requires room { fed_in_all self.old + length piece.now ≤ usize.MAX }

        // It tells where the last root ends in all that was fed.
        ensures tells { (roots : ℕ) (fed : List ℕ) → HasRead self.old roots fed
            → IfOk result (λ told. Tells roots fed piece.now told × HasRead self.new roots (fed ++ piece.now)) }
        ensures counts { IfOk result (λ told. fed_in_all self.new ≡ fed_in_all self.old + length piece.now) }
        ensures serves { IfOk result (λ told. refusal_of self.new ≡ None) }

        // Only where the last root never ends, however the bytes go on, is anything refused; or for want of memory.
        ensures refused { (roots : ℕ) (fed : List ℕ) → HasRead self.old roots fed
            → IfErr result (λ fault. fault ≢ HessianFault.OutOfMemory → NeverEnds roots (fed ++ piece.now)) }

        // It is the refusal of all that was fed: the place where no such graph goes on, and why.
        ensures why { (roots : ℕ) (fed : List ℕ) → HasRead self.old roots fed
            → IfErr result (λ fault. fault ≢ HessianFault.OutOfMemory → IsStoppedBy roots (fed ++ piece.now) fault) }
        ensures keeps { IfErr result (λ fault. refusal_of self.new ≡ Some fault) }

        // After a refusal nothing changes.
        ensures stays { (fault : Faults) → refusal_of self.old ≡ Some fault → (result ≡ Err fault) × (self.new ≡ self.old) }
    {
        self.course.feed(piece)
    }

    /// Ends the reading: the graph, or what was refused.
    pub fn finish(self) -> Result<Graph, HessianFault>
        // The graph is the one that the bytes denote up to the end of the last root.
        ensures ok { (roots : ℕ) (fed : List ℕ) → HasRead self roots fed
            → IfOk result (λ g. (n : ℕ) × (n ≤ length fed) × IsDenoted (take n fed) (shape_of g) × (length g.roots ≡ roots)) }
        ensures refused { (fault : Faults) → refusal_of self ≡ Some fault → result ≡ Err fault }
        ensures short { (roots : ℕ) (fed : List ℕ) → refusal_of self ≡ None → HasRead self roots fed
            → IfErr result (λ fault. fault ≢ HessianFault.OutOfMemory
            → (fault ≡ HessianFault.Short (length fed)) × ((n : ℕ) → EndsAt roots fed n → ⊥)) }

        // It is the refusal of what was fed, kind and place.
        ensures why { (roots : ℕ) (fed : List ℕ) → HasRead self roots fed
            → IfErr result (λ fault. fault ≢ HessianFault.OutOfMemory → IsRefusedBy roots fed fault) }
    {
        self.course.finish()
    }
}
