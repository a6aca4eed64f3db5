//! Numbers in decimal, as they are written.

ghost use Rattle.std.specs.Prelude.{◌≡◌, ◌+◌, ◌/◌, ◌%◌, ◌<◌, ◌≤◌, ◌^◌, ◌∷◌, ◌++◌, [], FitsSigned, OnOk, decimal};
ghost use Rattle.std.specs.Fmt.{signed_decimal};
ghost use Rattle.std.specs.Int.{w32, w64};
ghost use Rattle.std.specs.Vec.{vec_len, vec_capacity};

use itoa::Buffer;
use std::alloc::AllocError;

/// Numbers below it have at most eight digits.
const EIGHT_DIGITS: u32 = 100_000_000;

/// The two digits of each number below 100.
static PAIRS: [u8; 200] =
    *b"00010203040506070809101112131415161718192021222324252627282930313233343536373839404142434445464748495051525354555657585960616263646566676869707172737475767778798081828384858687888990919293949596979899";

/// Appends the two digits of a number below 100. There is room.
#[inline(always)]
fn push_pair(out: &mut Vec<u8>, number: u32)
    requires small { number < 100 }
    requires room { vec_len out.old + 2 ≤ vec_capacity out.old }
    ensures written { out.new.items ≡ out.old.items ++ (48 + number / 10) ∷ (48 + number % 10) ∷ [] }
    ensures len { vec_len out.new ≡ vec_len out.old + 2 }
    ensures capacity { vec_capacity out.new ≡ vec_capacity out.old }
{
    let at = number as usize * 2;
    out.push_reserved(PAIRS[at]);
    out.push_reserved(PAIRS[at + 1]);
}

/// Appends a number of at most two digits. There is room.
#[tactic(auto, using(crate::proofs::Written::one_written, crate::proofs::Written::two_written))]
#[inline(always)]
fn push_two(out: &mut Vec<u8>, number: u32)
    requires small { number < 100 }
    requires room { vec_len out.old + 2 ≤ vec_capacity out.old }
    ensures written { out.new.items ≡ out.old.items ++ decimal number }
    ensures len { vec_len out.new ≤ vec_len out.old + 2 }
    ensures capacity { vec_capacity out.new ≡ vec_capacity out.old }
{
    if number < 10 {
        out.push_reserved(b'0' + number as u8);
    } else {
        push_pair(out, number);
    }
}

/// Appends a number of at most four digits. There is room.
#[tactic(auto, using(crate::proofs::Written::pair_written))]
#[inline(always)]
fn push_four(out: &mut Vec<u8>, number: u32)
    requires small { number < 10000 }
    requires room { vec_len out.old + 4 ≤ vec_capacity out.old }
    ensures written { out.new.items ≡ out.old.items ++ decimal number }
    ensures len { vec_len out.new ≤ vec_len out.old + 4 }
    ensures capacity { vec_capacity out.new ≡ vec_capacity out.old }
{
    if number < 100 {
        push_two(out, number);
    } else {
        push_two(out, number / 100);
        push_pair(out, number % 100);
    }
}

/// Appends a number of at most eight digits. There is room.
#[tactic(auto, using(crate::proofs::Written::four_written))]
#[inline(always)]
fn push_eight(out: &mut Vec<u8>, number: u32)
    requires small { number < 100000000 }
    requires room { vec_len out.old + 8 ≤ vec_capacity out.old }
    ensures written { out.new.items ≡ out.old.items ++ decimal number }
{
    if number < 10_000 {
        push_four(out, number);
    } else {
        let last = number % 10_000;
        push_four(out, number / 10_000);
        push_pair(out, last / 100);
        push_pair(out, last % 100);
    }
}

/// Appends a number of at most eight digits.
#[inline(always)]
fn write_eight(out: &mut Vec<u8>, number: u32) -> Result<(), AllocError>
    requires { number < 100000000 }
    ensures { OnOk result (out.new.items ≡ out.old.items ++ decimal number) }
{
    out.reserve(8)?;
    push_eight(out, number);
    Ok(())
}

/// Appends any number of 32 bits.
#[inline(never)]
fn write_any_int(out: &mut Vec<u8>, number: i32) -> Result<(), AllocError>
    ensures { OnOk result (out.new.items ≡ out.old.items ++ signed_decimal number) }
{
    let mut buffer = Buffer::new();
    out.extend_from_slice(buffer.format(number).as_bytes())?;
    Ok(())
}

/// Appends any number of 64 bits.
#[inline(never)]
fn write_any_long(out: &mut Vec<u8>, number: i64) -> Result<(), AllocError>
    ensures { OnOk result (out.new.items ≡ out.old.items ++ signed_decimal number) }
{
    let mut buffer = Buffer::new();
    out.extend_from_slice(buffer.format(number).as_bytes())?;
    Ok(())
}

/// Appends any number of 32 bits without a sign.
#[inline(never)]
fn write_any_number(out: &mut Vec<u8>, number: u32) -> Result<(), AllocError>
    ensures { OnOk result (out.new.items ≡ out.old.items ++ decimal number) }
{
    let mut buffer = Buffer::new();
    out.extend_from_slice(buffer.format(number).as_bytes())?;
    Ok(())
}

/// Appends a number of 32 bits.
pub fn write_int(out: &mut Vec<u8>, number: i32) -> Result<(), AllocError>
    ensures fits { FitsSigned w32 number }
    ensures written { OnOk result (out.new.items ≡ out.old.items ++ signed_decimal number) }
{
    if number >= 0 && (number as u32) < EIGHT_DIGITS {
        write_eight(out, number as u32)
    } else {
        write_any_int(out, number)
    }
}

/// Appends a number of 64 bits.
pub fn write_long(out: &mut Vec<u8>, number: i64) -> Result<(), AllocError>
    ensures fits { FitsSigned w64 number }
    ensures written { OnOk result (out.new.items ≡ out.old.items ++ signed_decimal number) }
{
    if number >= 0 && number < i64::from(EIGHT_DIGITS) {
        write_eight(out, number as u32)
    } else {
        write_any_long(out, number)
    }
}

/// Appends a reference to a node.
pub fn write_reference(out: &mut Vec<u8>, number: u32) -> Result<(), AllocError>
    ensures fits { number < 2 ^ 32 }
    ensures written { OnOk result (out.new.items ≡ out.old.items ++ 0x23 ∷ decimal number) }
{
    out.push(b'#')?;
    if number < EIGHT_DIGITS {
        write_eight(out, number)
    } else {
        write_any_number(out, number)
    }
}
