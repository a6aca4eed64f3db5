//! A map's keys and values as pairs.

ghost use Rattle.std.specs.Prelude.{◌≡◌, IfOk, OnOk};
ghost use Rattle.hessian_graph.specs.Shape.{alternately};
ghost use Rattle.hessian_graph.specs.Spells.{ArePairs};
ghost use Rattle.hessian_reader.specs.Finish.{GetsPairs};

use hessian_graph::{Items, Node, Pair, Pairs, Value};
use std::alloc::{AllocError, Global};
use std::mem;

/// Keys and values, one after another, as pairs.
fn pairs_of(alloc: Global, values: Vec<Value>) -> Result<Vec<Pair>, AllocError>
    ensures { IfOk result (λ pairs. ArePairs values.items → alternately pairs.items ≡ values.items) }
{
    let mut pairs = Vec::with_capacity(alloc, values.len() / 2)?;
    let mut rest = values.into_iter();
    while let Some(key) = rest.next() {
        // A map that lacks nothing has a value for each key.
        let Some(value) = rest.next() else {
            return Ok(pairs);
        };
        pairs.push(Pair { key, value })?;
    }
    Ok(pairs)
}

/// Makes the pairs of a list that stands for a map.
pub fn make_pairs(alloc: Global, node: &mut Node) -> Result<(), AllocError>
    ensures { OnOk result (GetsPairs node.old node.new) }
{
    if let Node::List { type_name, items } = node {
        let type_name = *type_name;
        let values = mem::replace(items, Items::from(Vec::new(alloc)));
        let pairs = Pairs::from(pairs_of(alloc, values.into_inner())?);
        *node = Node::Map { type_name, pairs };
    }
    Ok(())
}
