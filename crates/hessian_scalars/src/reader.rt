//! Reading a scalar, whole or in pieces.

ghost use Rattle.std.specs.Prelude.{◌≡◌, ◌↔◌, ◌≤◌, ◌+◌, ℕ, List, [], ◌++◌, length, take, drop, slice_get, min, Some, IsTrue};
ghost use Rattle.hessian_scalars.specs.declared.scalar.Scalar as scalars;
ghost use Rattle.hessian_scalars.specs.ScalarSpelling.{IsDoubleCode};
ghost use Rattle.hessian_scalars.specs.Read.{IsSpelledAt, IsProperPrefix, BeginsNothing};
ghost use Rattle.hessian_scalars.specs.Codes.{front_of, EndsWithin};
ghost use Rattle.hessian_scalars.specs.Feeding.{Completes, fed, kept, placed};

use crate::fault::ScalarFault;
use crate::front::{Front, peek};
use crate::scalar::Scalar;
use std::marker::Model;

/// The most bytes that a scalar has: a code and a number of 64 bits.
const LONGEST: usize = 9;

/// A scalar that comes in pieces, which may end inside its number.
///
/// It is seen as the bytes that came of a scalar that is not whole yet: none of them, or the
/// beginning of a spelling.
#[derive(Debug, Drop)]
pub struct ScalarReader {
    bytes: [u8; 9],
    len: usize,
}

impl Model for ScalarReader {
    ghost use Rattle.std.specs.Prelude.{ℕ, List, ◌≤◌, take};
    ghost use Rattle.hessian_scalars.specs.Read.{IsProperPrefix};

    ghost Value = { List ℕ };

    ghost view = { λ r. take r.len r.bytes };

    ghost invariant = { λ r. (r.len ≤ 9) × IsProperPrefix (take r.len r.bytes) };
}

impl ScalarReader {
    /// A reader to which nothing came.
    pub fn new() -> ScalarReader
        ensures { result ≡ [] }
    {
        ScalarReader {
            bytes: [0; 9],
            len: 0,
        }
    }

    /// Whether a scalar has begun that is not whole yet.
    pub fn is_inside(&self) -> bool
        ensures { IsTrue result ↔ (self.now ≡ [] → ⊥) }
    {
        self.len != 0
    }

    /// Takes a piece up to the end of the scalar.
    ///
    /// The count in `Front::Whole` is of bytes of this piece. After `Front::Part` all of the piece
    /// is taken; after each other answer the reader is as new, and nothing is taken of what was refused.
    pub fn feed(&mut self, piece: &[u8]) -> Front
        // What came and a front of the piece spell this value.
        ensures whole { (v : scalars.Scalar) (used : ℕ) → (result ≡ Front.Whole v used)
            ↔ ((used ≤ length piece.now) × Completes self.old v (take used piece.now)) }
        ensures part { (result ≡ Front.Part) ↔ IsProperPrefix (self.old ++ piece.now) }

        // Only the first byte of a scalar is refused.
        ensures double { (code : ℕ) → (result ≡ Front.Double code)
            ↔ ((self.old ≡ []) × (slice_get piece.now 0 ≡ Some code) × IsDoubleCode code) }
        ensures other { (code : ℕ) → (result ≡ Front.Other code)
            ↔ ((self.old ≡ []) × (slice_get piece.now 0 ≡ Some code) × BeginsNothing code) }

        ensures goes_on { result ≡ Front.Part → self.new ≡ self.old ++ piece.now }
        ensures anew { (result ≡ Front.Part → ⊥) → self.new ≡ [] }
    {
        self.take(piece)
    }

    /// The same, as the codes say it.
    #[tactic(auto, unfolding(crate::specs::Feeding::fed, crate::specs::Feeding::kept))]
    fn take(&mut self, piece: &[u8]) -> Front
        ensures exact { result ≡ fed self.old piece.now }
        ensures kept { self.new ≡ kept self.old piece.now }
        ensures within { EndsWithin (length piece.now) result }
        ensures begun { IsProperPrefix self.old }
    {
        if self.len == 0 {
            let found = peek(piece);
            if found != Front::Part {
                return found;
            }
        }
        self.go_on(piece)
    }

    /// The same, by way of the bytes that are kept.
    #[tactic(auto, unfolding(crate::specs::Feeding::fed, crate::specs::Feeding::kept))]
    fn go_on(&mut self, piece: &[u8]) -> Front
        ensures exact { result ≡ fed self.old piece.now }
        ensures kept { self.new ≡ kept self.old piece.now }
        ensures within { EndsWithin (length piece.now) result }
    {
        let before = self.len;
        let taken = piece.len().min(LONGEST - before);
        let bytes = joined(self.bytes, before, &piece[..taken]);
        match peek(&bytes[..before + taken]) {
            Front::Whole(value, end) => {
                self.len = 0;
                Front::Whole(value, end - before)
            }
            Front::Part => {
                self.bytes = bytes;
                self.len = before + taken;
                Front::Part
            }
            Front::Double(code) => {
                self.len = 0;
                Front::Double(code)
            }
            Front::Other(code) => {
                self.len = 0;
                Front::Other(code)
            }
        }
    }
}

/// These bytes with more behind the first `len` of them.
fn joined(mut bytes: [u8; 9], len: usize, more: &[u8]) -> [u8; 9]
    requires { len + length more.now ≤ 9 }
    ensures { take (len + length more.now) result ≡ take len bytes ++ more.now }
{
    bytes[len..len + more.len()].copy_from_slice(more);
    bytes
}

/// The scalar that is spelled from a place on, and the place behind it. It takes no memory.
pub fn read_scalar(bytes: &[u8], at: usize) -> Result<(Scalar, usize), ScalarFault>
    requires { at ≤ length bytes.now }
    ensures ok { (v : scalars.Scalar) (end : ℕ) → (result ≡ Ok (v, end)) ↔ IsSpelledAt bytes.now at v end }

    // The rest is the beginning of a spelling, and ends with the bytes.
    ensures short { (place : ℕ) → (result ≡ Err (ScalarFault.Short place))
        ↔ ((place ≡ length bytes.now) × IsProperPrefix (drop at bytes.now)) }
    ensures double { (place code : ℕ) → (result ≡ Err (ScalarFault.Double place code))
        ↔ ((place ≡ at) × (slice_get bytes.now at ≡ Some code) × IsDoubleCode code) }
    ensures other { (place code : ℕ) → (result ≡ Err (ScalarFault.Other place code))
        ↔ ((place ≡ at) × (slice_get bytes.now at ≡ Some code) × BeginsNothing code) }
{
    scalar_from(bytes, at)
}

/// The same, by one piece that a reader is fed.
#[tactic(auto, unfolding(crate::specs::Feeding::fed))]
fn scalar_from(bytes: &[u8], at: usize) -> Result<(Scalar, usize), ScalarFault>
    requires { at ≤ length bytes.now }
    ensures { result ≡ placed at (length bytes.now) (front_of (drop at bytes.now)) }
{
    let mut reader = ScalarReader::new();
    match reader.take(&bytes[at..]) {
        Front::Whole(value, len) => Ok((value, at + len)),
        Front::Part => Err(ScalarFault::Short { at: bytes.len() }),
        Front::Double(code) => Err(ScalarFault::Double { at, code }),
        Front::Other(code) => Err(ScalarFault::Other { at, code }),
    }
}
