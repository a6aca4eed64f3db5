//! Graphs, whose parts are sound.

ghost use Rattle.std.specs.Prelude.{◌≡◌, ◌<◌, ◌^◌, length, IfOk};
ghost use Rattle.hessian_graph.specs.Faults.{First, faults, IsSound};
ghost use Rattle.hessian_graph.specs.Shape.{shape_of};

use crate::check::check_parts;
use crate::parts::{Parts, PartsFault};
use std::marker::Model;

/// A graph: its parts, each number of which names something.
///
/// Contracts see the parts. The graph that they are, with the names of types and classes put in, is `shape_of` of them.
#[derive(Drop)]
pub struct Graph {
    parts: Parts,
}

impl Model for Graph {
    ghost use Rattle.hessian_graph.specs.declared.parts.Parts.{Parts};
    ghost use Rattle.hessian_graph.specs.Faults.{IsSound};
    ghost use Rattle.std.specs.Prelude.{◌<◌, ◌^◌, length};

    ghost Value = { Parts };

    ghost view = { λ a. a.parts };

    ghost invariant = { λ a. IsSound a.parts × (length a.parts.nodes < 2 ^ 32) };
}

impl Graph {
    /// The graph of these parts, or the first fault: of the roots, then of the nodes in order.
    ///
    /// A node's type or class is looked at first, then its number of values, then its values. A refused call drops the parts.
    pub fn from_parts(parts: Parts) -> Result<Graph, PartsFault>
        requires { length parts.nodes < 2 ^ 32 }
        ensures first { First result (faults parts) }
        ensures parts { IfOk result (λ g. g ≡ parts) }
    {
        check_parts(&parts)?;
        Ok(Graph { parts })
    }

    /// The graph of parts that are known to be sound, with no second look.
    pub fn from_sound(parts: Parts) -> Graph
        requires sound { IsSound parts }
        requires few { length parts.nodes < 2 ^ 32 }
        ensures { result ≡ parts }
    {
        Graph { parts }
    }

    /// The parts of the graph.
    pub fn parts(&self) -> &Parts
        ensures parts { result.now ≡ self.now }
        ensures sound { IsSound self.now }
        ensures few { length self.now.nodes < 2 ^ 32 }
    {
        &self.parts
    }

    /// Takes the graph apart.
    pub fn into_parts(self) -> Parts
        ensures parts { result ≡ self }
        ensures sound { IsSound self }
        ensures few { length self.nodes < 2 ^ 32 }
    {
        self.parts
    }
}
