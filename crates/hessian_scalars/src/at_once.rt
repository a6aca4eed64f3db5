//! A scalar that lies whole at the front of bytes.

ghost use Rattle.std.specs.Prelude.{◌≤◌, ℕ, length, take, IfSome, IfNone};
ghost use Rattle.hessian_scalars.specs.declared.scalar.Scalar as scalars;
ghost use Rattle.hessian_scalars.specs.ScalarSpelling.{ScalarSpelling};

use crate::front::{Front, peek, with_byte, with_two};
use crate::scalar::Scalar;

/// The scalar that lies whole at the front of a piece, and behind how many bytes it ends.
#[inline(always)]
pub fn scalar_at_once(piece: &[u8]) -> Option<(Scalar, usize)>
    ensures within { IfSome result (λ p. p.1 ≤ length piece.now) }
    ensures spells { IfSome result (λ p. ScalarSpelling p.0 (take p.1 piece.now)) }
    ensures none { IfNone result ((v : scalars.Scalar) (used : ℕ) → used ≤ length piece.now → ScalarSpelling v (take used piece.now) → ⊥) }
{
    match *piece {
        [code @ 0x80..=0xbf, ..] => Some((Scalar::Int(code as i32 - 0x90), 1)),
        [code @ 0xc0..=0xcf, b0, ..] => Some((Scalar::Int(with_byte(0xc8, code, b0)), 2)),
        [code @ 0xd0..=0xd7, b1, b0, ..] => { Some((Scalar::Int(with_two(0xd4, code, b1, b0)), 3)) }
        [b'I', b3, b2, b1, b0, ..] => {
            Some((Scalar::Int(i32::from_be_bytes([b3, b2, b1, b0])), 5))
        }
        _ => long_at_once(piece),
    }
}

/// The same, where no int lies whole there.
#[inline(always)]
fn long_at_once(piece: &[u8]) -> Option<(Scalar, usize)>
    ensures within { IfSome result (λ p. p.1 ≤ length piece.now) }
    ensures spells { IfSome result (λ p. ScalarSpelling p.0 (take p.1 piece.now)) }
    ensures none { IfNone result ((v : scalars.Scalar) (used : ℕ) → used ≤ length piece.now → ScalarSpelling v (take used piece.now) → ⊥) }
{
    match *piece {
        [code @ 0xd8..=0xef, ..] => Some((Scalar::Long(code as i64 - 0xe0), 1)),
        [code @ 0xf0..=0xff, b0, ..] => {
            Some((Scalar::Long(i64::from(with_byte(0xf8, code, b0))), 2))
        }
        [code @ 0x38..=0x3f, b1, b0, ..] => {
            Some((Scalar::Long(i64::from(with_two(0x3c, code, b1, b0))), 3))
        }
        [0x59, b3, b2, b1, b0, ..] => {
            let number = i32::from_be_bytes([b3, b2, b1, b0]);
            Some((Scalar::Long(i64::from(number)), 5))
        }
        _ => whole_at_front(piece),
    }
}

/// The same, by way of what stands at the front.
fn whole_at_front(piece: &[u8]) -> Option<(Scalar, usize)>
    ensures within { IfSome result (λ p. p.1 ≤ length piece.now) }
    ensures spells { IfSome result (λ p. ScalarSpelling p.0 (take p.1 piece.now)) }
    ensures none { IfNone result ((v : scalars.Scalar) (used : ℕ) → used ≤ length piece.now → ScalarSpelling v (take used piece.now) → ⊥) }
{
    match peek(piece) {
        Front::Whole(value, len) => Some((value, len)),
        _ => None,
    }
}
