//! Writing a scalar in its shortest spelling.

ghost use Rattle.std.specs.Prelude.{◌≡◌, ℤ, pos, ◌*ℤ◌, FitsSigned, IfSome, IfNone, OnOk, OnErr};
ghost use Rattle.std.specs.Int.{w32};
ghost use Rattle.hessian_scalars.specs.Written.{Appends};
ghost use Rattle.hessian_scalars.specs.declared.scalar.Scalar.TheVariants as scalars;

use crate::fault::OutOfMemory;
use crate::int::write_int;
use crate::scalar::Scalar;
use std::alloc::Global;

/// The milliseconds of a minute, in which a date is written where it can be.
const MINUTE: i64 = 60000;

/// Appends the shortest spelling of a scalar.
pub fn write_scalar(alloc: Global, out: &mut Vec<u8>, value: Scalar) -> Result<(), OutOfMemory>
    ensures ok { OnOk result (Appends out.old.items out.new.items value) }
    ensures err { OnErr result (out.new.items ≡ out.old.items) }
{
    match value {
        Scalar::Null => Ok(out.extend_from_slice(b"N")?),
        Scalar::Bool(false) => Ok(out.extend_from_slice(b"F")?),
        Scalar::Bool(true) => Ok(out.extend_from_slice(b"T")?),
        Scalar::Int(number) => write_int(alloc, out, number),
        Scalar::Long(number) => write_long(out, number),
        Scalar::Date(millis) => write_date(out, millis),
    }
}

/// Appends the shortest spelling of a long.
fn write_long(out: &mut Vec<u8>, value: i64) -> Result<(), OutOfMemory>
    ensures ok { OnOk result (Appends out.old.items out.new.items (scalars.Long value)) }
    ensures err { OnErr result (out.new.items ≡ out.old.items) }
{
    match value {
        -8..=15 => out.extend_from_slice(&[(value + 0xe0) as u8])?,
        -2048..=2047 => {
            let [_, _, code, b0] = (value as i32 + 0xf800).to_be_bytes();
            out.extend_from_slice(&[code, b0])?;
        }
        -262144..=262143 => {
            let [_, code, b1, b0] = (value as i32 + 0x3c_0000).to_be_bytes();
            out.extend_from_slice(&[code, b1, b0])?;
        }
        -2147483648..=2147483647 => {
            let [b3, b2, b1, b0] = (value as i32).to_be_bytes();
            out.extend_from_slice(&[0x59, b3, b2, b1, b0])?;
        }
        _ => {
            let [b7, b6, b5, b4, b3, b2, b1, b0] = value.to_be_bytes();
            out.extend_from_slice(&[b'L', b7, b6, b5, b4, b3, b2, b1, b0])?;
        }
    }
    Ok(())
}

/// Appends the shortest spelling of a date, which is given in milliseconds since 1970 UTC.
fn write_date(out: &mut Vec<u8>, value: i64) -> Result<(), OutOfMemory>
    ensures ok { OnOk result (Appends out.old.items out.new.items (scalars.Date value)) }
    ensures err { OnErr result (out.new.items ≡ out.old.items) }
{
    match whole_minutes(value) {
        Some(minutes) => {
            let [b3, b2, b1, b0] = minutes.to_be_bytes();
            out.extend_from_slice(&[0x4b, b3, b2, b1, b0])?;
        }
        None => {
            let [b7, b6, b5, b4, b3, b2, b1, b0] = value.to_be_bytes();
            out.extend_from_slice(&[0x4a, b7, b6, b5, b4, b3, b2, b1, b0])?;
        }
    }
    Ok(())
}

/// The minutes that these milliseconds are, where they are a number of 32 bits of whole minutes.
fn whole_minutes(millis: i64) -> Option<i32>
    ensures some { IfSome result (λ m. millis ≡ m *ℤ pos 60000) }
    ensures none { IfNone result ((m : ℤ) → FitsSigned w32 m → millis ≡ m *ℤ pos 60000 → ⊥) }
{
    let minutes = millis / MINUTE;
    if minutes * MINUTE != millis || minutes < -2147483648 || 2147483647 < minutes {
        return None;
    }
    Some(minutes as i32)
}
