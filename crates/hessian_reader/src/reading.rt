//! A graph that is read whole.

ghost use Rattle.std.specs.Prelude.{◌≡◌, ◌≢◌, ℕ, length, MatchResult, IfOk, IfErr};
ghost use Rattle.hessian_graph.specs.Shape.{Shape, shape_of};
ghost use Rattle.hessian_reader.specs.Leaves.{IsDenoted};
ghost use Rattle.hessian_reader.specs.Refusing.{IsRefusedBy};

use crate::fault::HessianFault;
use crate::reader::{Fed, GraphReader};
use hessian_graph::Graph;
use std::alloc::Global;

/// Reads the graph of so many roots that the bytes denote.
///
/// No memory is taken for a stated length, only for values that came.
pub fn read_graph(alloc: Global, bytes: &[u8], roots: u32) -> Result<Graph, HessianFault>
    // What is read is denoted.
    ensures ok { IfOk result (λ g. IsDenoted bytes.now (shape_of g) × (length g.roots ≡ roots)) }

    // What is denoted is read, unless memory is wanted.
    ensures complete { (g : Shape) → IsDenoted bytes.now g → length g.roots ≡ roots
        → MatchResult result (λ read. shape_of read ≡ g) (λ fault. fault ≡ HessianFault.OutOfMemory) }

    // Nothing else is refused.
    ensures refused { IfErr result (λ fault. fault ≢ HessianFault.OutOfMemory → (g : Shape)
        → IsDenoted bytes.now g → length g.roots ≡ roots → ⊥) }

    // What is refused is refused for the cause, and at the place, that the definition of refusals gives.
    ensures why { IfErr result (λ fault. fault ≢ HessianFault.OutOfMemory → IsRefusedBy roots bytes.now fault) }
{
    let mut reader = GraphReader::new(alloc, roots);
    match reader.feed(bytes) {
        Err(fault) => Err(fault),
        Ok(Fed::More) => reader.finish(),
        Ok(Fed::Done { used }) => {
            if used < bytes.len() {
                return Err(HessianFault::Trailing { at: used });
            }
            reader.finish()
        }
    }
}
