//! The text or the binary that stands at a place of bytes.

ghost use Rattle.std.specs.Prelude.{◌≡◌, ◌≤◌, List, ℕ, length, IfErr, IfOk, MatchResult, string_bytes};
ghost use Rattle.hessian_text.specs.Answer.{RefusesChunk};
ghost use Rattle.hessian_text.specs.Refusal.{RefusesBinary, RefusesText};
ghost use Rattle.hessian_text.specs.Spelling.{IsSpelledAt};

use crate::fault::{BinaryFault, TextFault};
use crate::reader::ChunkReader;
use crate::stage::Kind;
use crate::step::Fed;
use std::alloc::Global;

/// Why no value was read.
#[derive(Clone, Copy, Debug, PartialEq, Eq)]
pub(crate) enum ChunkFault {
    Short { at: usize },
    BadCode { at: usize, code: u8 },
    BadText { at: usize },
    OutOfMemory,
}

/// Reads the chunks of a value.
fn read_chunks(
    alloc: Global,
    kind: Kind,
    bytes: &[u8],
    at: usize,
) -> Result<(ChunkReader, usize), ChunkFault>
    requires { at ≤ length bytes.now }
    ensures kind { IfOk result (λ r. r.0.kind ≡ kind) }
    ensures ok { IfOk result (λ r. IsSpelledAt kind bytes.now at r.0.done r.1) }
    ensures complete { (value : List ℕ) (end : ℕ) → IsSpelledAt kind bytes.now at value end
        → MatchResult result (λ r. (r.0.done ≡ value) × (r.1 ≡ end))
        (λ fault. fault ≡ ChunkFault.OutOfMemory) }
    ensures refused { IfErr result (RefusesChunk kind bytes.now at) }
{
    let mut reader = ChunkReader::new(alloc, kind);
    let Ok(fed) = reader.feed(&bytes[at..]) else {
        return Err(ChunkFault::OutOfMemory);
    };
    match fed {
        Fed::Whole(taken) => Ok((reader, at + taken)),
        Fed::More => Err(ChunkFault::Short { at: bytes.len() }),
        Fed::NoCode(taken) => Err(ChunkFault::BadCode {
            at: at + taken,
            code: bytes[at + taken],
        }),
        Fed::NoItem(taken, begun_len) => Err(ChunkFault::BadText {
            at: at + taken - begun_len,
        }),
    }
}

/// Reads the binary that begins at a place, and answers it with the place behind it.
pub fn read_binary(alloc: Global, bytes: &[u8], at: usize) -> Result<(Vec<u8>, usize), BinaryFault>
    requires { at ≤ length bytes.now }
    ensures ok { IfOk result (λ r. IsSpelledAt Kind.Binary bytes.now at r.0.items r.1) }
    ensures complete { (value : List ℕ) (end : ℕ) → IsSpelledAt Kind.Binary bytes.now at value end
        → MatchResult result (λ r. (r.0.items ≡ value) × (r.1 ≡ end))
        (λ fault. fault ≡ BinaryFault.OutOfMemory) }
    ensures refused { IfErr result (RefusesBinary bytes.now at) }
{
    match read_chunks(alloc, Kind::Binary, bytes, at) {
        Ok((reader, end)) => Ok((reader.into_bytes(), end)),
        Err(ChunkFault::Short { at }) => Err(BinaryFault::Short { at }),
        Err(ChunkFault::BadCode { at, code }) => Err(BinaryFault::BadCode { at, code }),
        Err(ChunkFault::BadText { .. }) => unreachable!(),
        Err(ChunkFault::OutOfMemory) => Err(BinaryFault::OutOfMemory),
    }
}

/// Reads the text that begins at a place, and answers it with the place behind it.
pub fn read_text(alloc: Global, bytes: &[u8], at: usize) -> Result<(String, usize), TextFault>
    requires { at ≤ length bytes.now }
    ensures ok { IfOk result (λ r. IsSpelledAt Kind.Text bytes.now at (string_bytes r.0) r.1) }
    ensures complete { (value : List ℕ) (end : ℕ) → IsSpelledAt Kind.Text bytes.now at value end
        → MatchResult result (λ r. (string_bytes r.0 ≡ value) × (r.1 ≡ end))
        (λ fault. fault ≡ TextFault.OutOfMemory) }
    ensures refused { IfErr result (RefusesText bytes.now at) }
{
    match read_chunks(alloc, Kind::Text, bytes, at) {
        Ok((reader, end)) => Ok((reader.into_text(), end)),
        Err(ChunkFault::Short { at }) => Err(TextFault::Short { at }),
        Err(ChunkFault::BadCode { at, code }) => Err(TextFault::BadCode { at, code }),
        Err(ChunkFault::BadText { at }) => Err(TextFault::BadText { at }),
        Err(ChunkFault::OutOfMemory) => Err(TextFault::OutOfMemory),
    }
}
