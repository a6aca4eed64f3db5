//! Numbers in decimal: `-` before a negative, no leading zero, no `-0`.

ghost use Rattle.std.specs.Prelude.{◌≡◌, ◌≢◌, ℕ, ℤ, ◌+◌, ◌<◌, ◌^◌, length, get_or, IfSome, MatchOption, FitsSigned, decimal};
ghost use Rattle.std.specs.Fmt.{signed_decimal};
ghost use Rattle.std.specs.Int.{w32, w64};

use itoa::Buffer;
use std::str;

/// The number that digits write: at most eighteen digits, no zero before others. Nothing is known of other bytes.
fn small(bytes: &[u8]) -> Option<u64>
    ensures { IfSome result (λ n. (n < 1000000000000000000) × (bytes.now ≡ decimal n)) }
{
    let first = digit(bytes, 0)?;
    if first == 0 {
        return if bytes.len() == 1 { Some(0) } else { None };
    }
    let mut value = first;
    let mut at = 1;
    while at < bytes.len() {
        let next = digit(bytes, at)?;
        if value >= 100_000_000_000_000_000 {
            return None;
        }
        value = value * 10 + next;
        at += 1;
    }
    Some(value)
}

/// The digit at a place.
fn digit(bytes: &[u8], at: usize) -> Option<u64>
    ensures { IfSome result (λ d. (at < length bytes.now) × (d < 10) × (get_or bytes.now at 0 ≡ 0x30 + d)) }
{
    if at < bytes.len() && bytes[at] >= b'0' && bytes[at] <= b'9' {
        Some(u64::from(bytes[at] - b'0'))
    } else {
        None
    }
}

/// The number of 32 bits that the bytes write.
pub fn int(bytes: &[u8]) -> Option<i32>
    ensures { MatchOption result ((z : ℤ) → FitsSigned w32 z → bytes.now ≢ signed_decimal z)
        (λ z. FitsSigned w32 z × (bytes.now ≡ signed_decimal z)) }
{
    match small(bytes) {
        Some(number) if number < 0x8000_0000 => Some(number as i32),
        Some(_) => None,
        None => any_int(bytes),
    }
}

/// The number of 32 bits that the bytes write, by the parser of all numbers.
fn any_int(bytes: &[u8]) -> Option<i32>
    ensures { MatchOption result ((z : ℤ) → FitsSigned w32 z → bytes.now ≢ signed_decimal z)
        (λ z. FitsSigned w32 z × (bytes.now ≡ signed_decimal z)) }
{
    let number = str::from_utf8(bytes).ok()?.parse::<i32>().ok()?;
    let mut buffer = Buffer::new();
    if buffer.format(number).as_bytes() == bytes {
        Some(number)
    } else {
        None
    }
}

/// The number of 64 bits that the bytes write.
pub fn long(bytes: &[u8]) -> Option<i64>
    ensures { MatchOption result ((z : ℤ) → FitsSigned w64 z → bytes.now ≢ signed_decimal z)
        (λ z. FitsSigned w64 z × (bytes.now ≡ signed_decimal z)) }
{
    match small(bytes) {
        Some(number) => Some(number as i64),
        None => any_long(bytes),
    }
}

/// The number of 64 bits that the bytes write, by the parser of all numbers.
fn any_long(bytes: &[u8]) -> Option<i64>
    ensures { MatchOption result ((z : ℤ) → FitsSigned w64 z → bytes.now ≢ signed_decimal z)
        (λ z. FitsSigned w64 z × (bytes.now ≡ signed_decimal z)) }
{
    let number = str::from_utf8(bytes).ok()?.parse::<i64>().ok()?;
    let mut buffer = Buffer::new();
    if buffer.format(number).as_bytes() == bytes {
        Some(number)
    } else {
        None
    }
}

/// The number of 32 bits without a sign that the bytes write.
pub fn number(bytes: &[u8]) -> Option<u32>
    ensures { MatchOption result ((n : ℕ) → n < 2 ^ 32 → bytes.now ≢ decimal n)
        (λ n. (n < 2 ^ 32) × (bytes.now ≡ decimal n)) }
{
    match small(bytes) {
        Some(number) if number < 0x1_0000_0000 => Some(number as u32),
        Some(_) => None,
        None => any_number(bytes),
    }
}

/// The number of 32 bits without a sign that the bytes write, by the parser of all numbers.
fn any_number(bytes: &[u8]) -> Option<u32>
    ensures { MatchOption result ((n : ℕ) → n < 2 ^ 32 → bytes.now ≢ decimal n)
        (λ n. (n < 2 ^ 32) × (bytes.now ≡ decimal n)) }
{
    let number = str::from_utf8(bytes).ok()?.parse::<u32>().ok()?;
    let mut buffer = Buffer::new();
    if buffer.format(number).as_bytes() == bytes {
        Some(number)
    } else {
        None
    }
}
