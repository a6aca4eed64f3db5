//! Values that lie whole at the front of a piece, one after another: leaves, and references to nodes that have begun.

ghost use Rattle.std.specs.Prelude.{◌≡◌, ℕ, ◌++◌, ◌∷◌, ◌≤◌, ◌<◌, [], length, slice_index, take, IfOk, IfSome, OnOk};
ghost use Rattle.hessian_reader.specs.Runs.{AddsNext, AddsValues, AreValues};

use crate::leaves::{number_at_once, text_leaf};
use crate::lexer::value_of;
use hessian_graph::{Items, Value};
use hessian_scalars::scalar_at_once;
use std::alloc::{AllocError, Global};

/// Values that were taken.
#[derive(Clone, Copy)]
pub struct Taken {
    /// How many they are.
    pub values: usize,
    /// How many bytes they are.
    pub bytes: usize,
}

/// The reference to one of so many nodes that lies whole at the front of a piece, and behind how many bytes it ends.
#[inline(always)]
fn reference_at_once(piece: &[u8], nodes: usize) -> Option<(Value, usize)>
    requires some { 0 < length piece.now }
    requires code { slice_index piece.now 0 ≡ 0x51 }
    ensures within { IfSome result (λ p. p.1 ≤ length piece.now) }
    ensures is { IfSome result (λ p. AreValues nodes (p.0 ∷ []) (take p.1 piece.now)) }
{
    match number_at_once(&piece[1..]) {
        Some((node, used)) if (node as usize) < nodes => Some((Value::Node(node), 1 + used)),
        _ => None,
    }
}

/// The most values for which the first one of a list takes room.
const FIRST_ROOM: usize = 8;

/// Takes room for so many values, but for no more than eight, where there are none.
#[inline(always)]
fn make_room(values: &mut Items, count: usize) -> Result<(), AllocError>
    ensures { values.new ≡ values.old }
{
    if values.is_empty() {
        values.reserve_exact(count.min(FIRST_ROOM))?;
    }
    Ok(())
}

/// Adds a value, with room for so many where it is the first.
#[inline(always)]
pub fn push_value(values: &mut Items, value: Value, room: usize) -> Result<(), AllocError>
    ensures { OnOk result (values.new ≡ values.old ++ value ∷ []) }
{
    make_room(values, room)?;
    values.push(value, room)
}

/// Adds the scalar that lies whole at the front of a piece, where so many values are to come with it, and answers behind
/// how many bytes it ends.
#[inline(always)]
fn push_scalar(
    values: &mut Items,
    piece: &[u8],
    to_come: usize,
) -> Result<Option<usize>, AllocError>
    ensures { (nodes : ℕ) → IfOk result (AddsNext nodes values.old piece.now values.new) }
{
    match scalar_at_once(piece) {
        Some((scalar, used)) => {
            values.push(value_of(scalar), to_come)?;
            Ok(Some(used))
        }
        None => Ok(None),
    }
}

/// The same of a text.
fn push_text(
    alloc: Global,
    values: &mut Items,
    piece: &[u8],
    to_come: usize,
) -> Result<Option<usize>, AllocError>
    ensures { (nodes : ℕ) → IfOk result (AddsNext nodes values.old piece.now values.new) }
{
    match text_leaf(alloc, piece)? {
        Some((value, used)) => {
            values.push(value, to_come)?;
            Ok(Some(used))
        }
        None => Ok(None),
    }
}

/// The same of a reference to one of so many nodes.
#[inline(always)]
fn push_reference(
    values: &mut Items,
    piece: &[u8],
    nodes: usize,
    to_come: usize,
) -> Result<Option<usize>, AllocError>
    requires some { 0 < length piece.now }
    requires code { slice_index piece.now 0 ≡ 0x51 }
    ensures { IfOk result (AddsNext nodes values.old piece.now values.new) }
{
    match reference_at_once(piece, nodes) {
        Some((value, used)) => {
            values.push(value, to_come)?;
            Ok(Some(used))
        }
        None => Ok(None),
    }
}

/// Adds the leaf, or the reference to one of so many nodes, that lies whole at the front of a piece, where so many values are
/// to come with it, and answers behind how many bytes it ends.
#[inline(always)]
fn push_next(
    alloc: Global,
    values: &mut Items,
    piece: &[u8],
    nodes: usize,
    to_come: usize,
) -> Result<Option<usize>, AllocError>
    ensures { IfOk result (AddsNext nodes values.old piece.now values.new) }
{
    match *piece {
        [0x51, ..] => push_reference(values, piece, nodes, to_come),
        [0x00..=0x1f | 0x30..=0x33, ..] => push_text(alloc, values, piece, to_come),
        _ => push_scalar(values, piece, to_come),
    }
}

/// Adds the leaves and the references to one of so many nodes that lie whole at the front of a piece, but no more than so
/// many.
pub fn push_values(
    alloc: Global,
    values: &mut Items,
    piece: &[u8],
    most: usize,
    nodes: usize,
) -> Result<Taken, AllocError>
    ensures { IfOk result (AddsValues nodes values.old piece.now most values.new) }
{
    make_room(values, most)?;
    let mut count = 0;
    let mut bytes = 0;
    while count < most {
        let rest = &piece[bytes..];
        let Some(used) = push_next(alloc, values, rest, nodes, most - count)? else {
            return Ok(Taken {
                values: count,
                bytes,
            });
        };
        count += 1;
        bytes += used;
    }
    Ok(Taken {
        values: count,
        bytes,
    })
}
