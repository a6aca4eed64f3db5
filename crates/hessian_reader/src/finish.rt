//! The graph of a reading that is done.

ghost use Rattle.std.specs.Prelude.{◌≡◌, ◌<◌, ◌^◌, length, IfOk, IfErr};
ghost use Rattle.hessian_graph.specs.Shape.{shape_of};
ghost use Rattle.hessian_reader.specs.States.{graph_of as graph};
ghost use Rattle.hessian_reader.specs.Views.{state_of};
ghost use Rattle.hessian_reader.specs.Finish.{MapsAreWhole, MakesSound};

use crate::fault::HessianFault;
use crate::work::Work;
use hessian_graph::{Graph, Items, Nodes, Parts};

/// The graph that was read.
pub fn graph_of(work: Work) -> Result<Graph, HessianFault>
    requires sound { MakesSound (state_of work) }
    requires few { length work.store.nodes < 2 ^ 32 }
    ensures roots { IfOk result (λ g. g.roots ≡ (graph (state_of work)).roots) }
    ensures shape { IfOk result (λ g. MapsAreWhole (state_of work) → shape_of g ≡ graph (state_of work)) }
    ensures memory { IfErr result (λ fault. fault ≡ HessianFault.OutOfMemory) }
{
    let Work {
        store,
        names,
        place: _,
    } = work;
    let nodes = store.nodes.into_nodes(store.alloc)?;
    let (types, classes) = names.into_tables();
    let parts = Parts {
        roots: Items::from(store.roots),
        nodes: Nodes::from(nodes),
        types,
        classes,
    };
    Ok(Graph::from_sound(parts))
}
