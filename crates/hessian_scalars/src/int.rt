//! An int by itself, as lengths, counts and numbers are written.

ghost use Rattle.std.specs.Prelude.{◌≡◌, ◌↔◌, ◌≤◌, ℕ, ℤ, length, drop, slice_get, IsTrue, OnOk, OnErr};
ghost use Rattle.hessian_scalars.specs.Written.{Appends};
ghost use Rattle.hessian_scalars.specs.Read.{IsSpelledAt, IsIntPrefix, BeginsInt, BeginsNoInt};
ghost use Rattle.hessian_scalars.specs.Codes.{is_int_code, int_at};
ghost use Rattle.hessian_scalars.specs.declared.scalar.Scalar.TheVariants as scalars;

use crate::fault::{OutOfMemory, ScalarFault};
use crate::front::{Front, peek};
use crate::scalar::Scalar;
use std::alloc::Global;

/// Appends the shortest spelling of an int.
pub fn write_int(_alloc: Global, out: &mut Vec<u8>, value: i32) -> Result<(), OutOfMemory>
    ensures ok { OnOk result (Appends out.old.items out.new.items (scalars.Int value)) }
    ensures err { OnErr result (out.new.items ≡ out.old.items) }
{
    match value {
        -16..=47 => out.extend_from_slice(&[(value + 0x90) as u8])?,
        -2048..=2047 => {
            let [_, _, code, b0] = (value + 0xc800).to_be_bytes();
            out.extend_from_slice(&[code, b0])?;
        }
        -262144..=262143 => {
            let [_, code, b1, b0] = (value + 0xd4_0000).to_be_bytes();
            out.extend_from_slice(&[code, b1, b0])?;
        }
        _ => {
            let [b3, b2, b1, b0] = value.to_be_bytes();
            out.extend_from_slice(&[b'I', b3, b2, b1, b0])?;
        }
    }
    Ok(())
}

/// The int that is spelled from a place on, and the place behind it.
///
/// It takes no memory, and never answers `Double`: a double's code is no int's.
pub fn read_int(bytes: &[u8], at: usize) -> Result<(i32, usize), ScalarFault>
    requires { at ≤ length bytes.now }
    ensures ok { (v : ℤ) (end : ℕ) → (result ≡ Ok (v, end)) ↔ IsSpelledAt bytes.now at (scalars.Int v) end }

    // The rest is the beginning of an int's spelling, and ends with the bytes.
    ensures short { (place : ℕ) → (result ≡ Err (ScalarFault.Short place))
        ↔ ((place ≡ length bytes.now) × IsIntPrefix (drop at bytes.now)) }
    ensures other { (place code : ℕ) → (result ≡ Err (ScalarFault.Other place code))
        ↔ ((place ≡ at) × (slice_get bytes.now at ≡ Some code) × BeginsNoInt code) }
    ensures no_double { (place code : ℕ) → result ≡ Err (ScalarFault.Double place code) → ⊥ }
{
    int_from(bytes, at)
}

/// Whether an int begins with this code.
pub fn begins_int(code: u8) -> bool
    ensures { IsTrue result ↔ BeginsInt code }
{
    is_int_code(code)
}

/// The int at a place, as the codes say it.
#[tactic(auto, unfolding(crate::specs::Codes::int_at))]
fn int_from(bytes: &[u8], at: usize) -> Result<(i32, usize), ScalarFault>
    requires { at ≤ length bytes.now }
    ensures { result ≡ int_at at (length bytes.now) (drop at bytes.now) }
{
    let rest = &bytes[at..];
    match *rest {
        [] => Err(ScalarFault::Short { at: bytes.len() }),
        [code, ..] if !is_int_code(code) => Err(ScalarFault::Other { at, code }),
        _ => match peek(rest) {
            Front::Whole(Scalar::Int(number), len) => Ok((number, at + len)),
            _ => Err(ScalarFault::Short { at: bytes.len() }),
        },
    }
}

/// Whether a code is of one of the rows of ints.
fn is_int_code(code: u8) -> bool
    ensures { result ≡ is_int_code code }
{
    matches!(code, 0x80..=0xd7 | b'I')
}
