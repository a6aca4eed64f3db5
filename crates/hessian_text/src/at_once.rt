//! A text that is told at once, where its bytes lie whole at hand.

ghost use Rattle.std.specs.Prelude.{◌≡◌, ℕ, List, ◌+◌, ◌≤◌, length, take, IfOk, IfSome, IfNone, string_bytes};
ghost use Rattle.hessian_text.specs.AtOnce.{LiesAtOnce};
ghost use Rattle.hessian_text.specs.ChunkHead.{ChunkHead};
ghost use Rattle.hessian_text.specs.Spelling.{TextSpelling};

use crate::stage::{Kind, Part};
use crate::units::Measure;
use std::alloc::{AllocError, Global};

/// The head of one byte or two of a text's last chunk, and how many units it states.
#[inline(always)]
fn short_head(piece: &[u8]) -> Option<Measure>
    ensures within { IfSome result (λ head. head.len ≤ length piece.now) }
    ensures head { IfSome result (λ head.
        ChunkHead Kind.Text Part.Final head.units (take head.len piece.now)) }
    ensures only { IfSome result (λ head. (units len : ℕ) → len ≤ 2 → len ≤ length piece.now
        → ChunkHead Kind.Text Part.Final units (take len piece.now) → (len ≡ head.len) × (units ≡ head.units)) }
    ensures none { IfNone result ((units len : ℕ) → len ≤ 2 → len ≤ length piece.now
        → ChunkHead Kind.Text Part.Final units (take len piece.now) → ⊥) }
{
    match *piece.first()? {
        code @ 0x00..=0x1f => Some(Measure {
            len: 1,
            units: usize::from(code),
        }),
        code @ 0x30..=0x33 => Some(Measure {
            len: 2,
            units: usize::from(code - 0x30) * 256 + usize::from(*piece.get(1)?),
        }),
        _ => None,
    }
}

/// The text that a front of a piece spells, where that is told at once, and behind how many bytes it
/// ends.
///
/// Nothing is told only where no text in ASCII lies there whole, in one chunk with a head of one byte
/// or two.
#[inline(always)]
pub fn text_at_once(alloc: Global, piece: &[u8]) -> Result<Option<(String, usize)>, AllocError>
    ensures within { IfOk result (λ found. IfSome found (λ p. p.1 ≤ length piece.now)) }
    ensures spells { IfOk result (λ found. IfSome found (λ p.
        TextSpelling (string_bytes p.0) (take p.1 piece.now))) }
    ensures none { IfOk result (λ found. IfNone found ((text : List ℕ) (len : ℕ)
        → LiesAtOnce piece.now text len → ⊥)) }
{
    let Some(head) = short_head(piece) else {
        return Ok(None);
    };
    let end = head.len + head.units;
    if end > piece.len() {
        return Ok(None);
    }
    let characters = &piece[head.len..end];
    if !characters.is_ascii() {
        return Ok(None);
    }
    let bytes = Vec::from_slice(alloc, characters)?;
    // SAFETY: ASCII is UTF-8.
    let text = unsafe { String::from_utf8_unchecked(bytes) };
    Ok(Some((text, end)))
}
