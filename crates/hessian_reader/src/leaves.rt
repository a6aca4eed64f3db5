//! What lies whole at the front of a piece: a leaf, or the number of a reference.

ghost use Rattle.std.specs.Prelude.{◌≡◌, ◌≤◌, length, take, pos, IfOk, IfSome};
ghost use Rattle.hessian_reader.specs.Elements.{IsElement};

use crate::element::{Element, Want, natural};
use crate::lexer::value_of;
use hessian_graph::{Chars, Value};
use hessian_scalars::{Scalar, scalar_at_once};
use hessian_text::text_at_once;
use std::alloc::{AllocError, Global};

/// The text that lies whole at the front of a piece, where that is told at once, and behind how many bytes it ends.
#[inline(always)]
pub fn text_leaf(alloc: Global, piece: &[u8]) -> Result<Option<(Value, usize)>, AllocError>
    ensures within { IfOk result (λ found. IfSome found (λ p. p.1 ≤ length piece.now)) }
    ensures is { IfOk result (λ found. IfSome found (λ p. IsElement Want.AnyValue (take p.1 piece.now) (Element.Plain p.0))) }
{
    match text_at_once(alloc, piece)? {
        Some((text, used)) => Ok(Some((Value::Text(Chars::from(text)), used))),
        None => Ok(None),
    }
}

/// The leaf that lies whole at the front of a piece, where that is told at once, and behind how many bytes it ends.
#[inline(always)]
pub fn leaf_at_once(alloc: Global, piece: &[u8]) -> Result<Option<(Value, usize)>, AllocError>
    ensures within { IfOk result (λ found. IfSome found (λ p. p.1 ≤ length piece.now)) }
    ensures is { IfOk result (λ found. IfSome found (λ p. IsElement Want.AnyValue (take p.1 piece.now) (Element.Plain p.0))) }
{
    match *piece {
        // No scalar begins with these codes, and a text that is told at once begins with no other.
        [0x00..=0x1f | 0x30..=0x33, ..] => text_leaf(alloc, piece),
        _ => match scalar_at_once(piece) {
            Some((scalar, used)) => Ok(Some((value_of(scalar), used))),
            None => Ok(None),
        },
    }
}

/// The number that a scalar is, where it is an int that isn't negative.
fn number_of(scalar: Scalar) -> Option<u32>
    ensures { IfSome result (λ number. scalar ≡ Scalar.Int (pos number)) }
{
    match scalar {
        Scalar::Int(number) => natural(number),
        _ => None,
    }
}

/// The number that lies whole at the front of a piece, and behind how many bytes it ends.
#[inline(always)]
pub fn number_at_once(piece: &[u8]) -> Option<(u32, usize)>
    ensures within { IfSome result (λ p. p.1 ≤ length piece.now) }
    ensures is { IfSome result (λ p. IsElement Want.AnInt (take p.1 piece.now) (Element.Number (pos p.0))) }
{
    let (scalar, used) = scalar_at_once(piece)?;
    let number = number_of(scalar)?;
    Some((number, used))
}
