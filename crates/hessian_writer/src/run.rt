//! Runs of values that are no nodes.

ghost use Rattle.std.specs.Prelude.{◌≡◌, ◌<◌, ◌≤◌, length, get_or, IfOk, IfSome, IfNone, OnOk, IsTrue, ◌++◌};
ghost use Rattle.hessian_graph.specs.Shape.{values_of};
ghost use Rattle.hessian_graph.specs.declared.value.Value.TheVariants.{Null};
ghost use Rattle.hessian_writer.specs.Running.{RunsTo, end_bytes, IsNothingDue};

use crate::leaf::write_plain;
use hessian_graph::{Node, OutOfMemory, Value};
use std::alloc::Global;

/// Where a run of values ends.
#[derive(Clone, Copy)]
pub(crate) enum Stop {
    /// No value is left.
    End,
    /// At the node of this number.
    Node {
        /// The number of the node.
        number: u32,
        /// The place behind it among the values.
        behind: usize,
    },
}

/// The value at a place of a node's values, which are a map's keys and values alternately.
#[tactic(auto, using(crate::proofs::Pairs::key_even, crate::proofs::Pairs::value_odd, crate::proofs::Pairs::pair_within, crate::proofs::Pairs::pair_past))]
fn value_at(node: &Node, at: usize) -> Option<&Value>
    ensures some { IfSome result (λ v. v.now ≡ get_or (values_of node.now) at Null) }
    ensures within { IfSome result (λ v. at < length (values_of node.now)) }
    ensures room { IfSome result (λ v. at < usize.MAX) }
    ensures none { IfNone result (length (values_of node.now) ≤ at) }
{
    match node {
        Node::List { items, .. } => items.as_slice().get(at),
        Node::Map { pairs, .. } => {
            let pairs = pairs.as_slice();
            if at / 2 >= pairs.len() {
                None
            } else if at % 2 == 0 {
                Some(&pairs[at / 2].key)
            } else {
                Some(&pairs[at / 2].value)
            }
        }
        Node::Object { values, .. } => values.as_slice().get(at),
    }
}

/// Writes the values of a node from a place on, up to the next that is a node.
pub(crate) fn write_run(
    alloc: Global,
    out: &mut Vec<u8>,
    node: &Node,
    from: usize,
) -> Result<Stop, OutOfMemory>
    ensures { IfOk result (λ stop. RunsTo (values_of node.now) from stop out.old.items out.new.items) }
{
    let mut at = from;
    while let Some(value) = value_at(node, at) {
        at += 1;
        if let Some(number) = write_plain(alloc, out, value)? {
            return Ok(Stop::Node { number, behind: at });
        }
    }
    Ok(Stop::End)
}

/// Whether nothing is due of a node behind this place among its values: no value, and no end.
pub(crate) fn is_over(node: &Node, at: usize) -> bool
    ensures { IsTrue result → IsNothingDue node.now at }
{
    match node {
        Node::List { items, .. } => items.as_slice().len() <= at,
        Node::Map { .. } => false,
        Node::Object { values, .. } => values.as_slice().len() <= at,
    }
}

/// Writes what stands behind the values of a node: `Z` behind those of a map.
pub(crate) fn write_end(out: &mut Vec<u8>, node: &Node) -> Result<(), OutOfMemory>
    ensures { OnOk result (out.new.items ≡ out.old.items ++ end_bytes node.now) }
{
    match node {
        Node::Map { .. } => out.push(b'Z')?,
        _ => {}
    }
    Ok(())
}
