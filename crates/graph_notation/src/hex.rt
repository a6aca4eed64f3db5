//! Lists of bytes as pairs of hexadecimal digits.

ghost use Rattle.std.specs.Prelude.{◌≡◌, ℕ, List, Option, ◌<◌, ◌≤◌, ◌∷◌, ◌++◌, [], length, drop, None, Some, IfOk, MatchOption};
ghost use Rattle.graph_notation.specs.Unquoting.{digit_of, unhexed, paired, behind, below_16};

use std::alloc::{AllocError, Global};

/// How many digits are read in one go.
const BLOCK: usize = 64;

/// The number of a hexadecimal digit in lower case, or 16 for any other byte.
fn nibble(byte: u8) -> u8
    ensures { digit_of byte ≡ below_16 result }
{
    let figure = byte.wrapping_sub(b'0');
    let letter = byte.wrapping_sub(b'a');
    if figure < 10 {
        figure
    } else if letter < 6 {
        letter + 10
    } else {
        16
    }
}

/// The byte that two digits write.
fn pair(high: u8, low: u8) -> Option<u8>
    ensures byte { (rest : Option (List ℕ)) → MatchOption result (paired (digit_of high) (digit_of low) rest ≡ None)
        (λ b. paired (digit_of high) (digit_of low) rest ≡ behind (b ∷ []) rest) }
{
    let first = nibble(high);
    let second = nibble(low);
    if first < 16 && second < 16 {
        Some(first * 16 + second)
    } else {
        None
    }
}

/// The bytes that the digits of a block write.
fn bytes_of(block: &[u8]) -> Option<[u8; 32]>
    requires { length block.now ≡ 64 }
    ensures { (rest : List ℕ) → MatchOption result (unhexed (block.now ++ rest) ≡ None) (λ bytes. unhexed (block.now ++ rest) ≡ behind bytes (unhexed rest)) }
{
    let mut bytes = [0; 32];
    let mut most = 0u8;
    for at in 0..32 {
        let high = nibble(block[2 * at]);
        let low = nibble(block[2 * at + 1]);
        bytes[at] = high % 16 * 16 + low % 16;
        most = most.max(high).max(low);
    }
    if most < 16 { Some(bytes) } else { None }
}

/// Appends the bytes that whole blocks of digits write, and answers the place behind them.
fn add_blocks(out: &mut Vec<u8>, digits: &[u8]) -> Result<Option<usize>, AllocError>
    requires { out.old.items ≡ [] }
    ensures { IfOk result (λ r. MatchOption r (unhexed digits.now ≡ None)
        (λ at. (at ≤ length digits.now) × (unhexed digits.now ≡ behind out.new.items (unhexed (drop at digits.now))))) }
{
    let mut at = 0;
    while digits.len() - at >= BLOCK {
        match bytes_of(&digits[at..at + BLOCK]) {
            Some(bytes) => out.extend_from_slice(&bytes)?,
            None => return Ok(None),
        }
        at += BLOCK;
    }
    Ok(Some(at))
}

/// The bytes that pairs of digits write.
pub fn unhex(alloc: Global, digits: &[u8]) -> Result<Option<Vec<u8>>, AllocError>
    ensures { IfOk result (λ r. MatchOption r (unhexed digits.now ≡ None) (λ v. unhexed digits.now ≡ Some v.items)) }
{
    let mut out = Vec::with_capacity(alloc, digits.len() / 2)?;
    match add_blocks(&mut out, digits)? {
        Some(at) => add_pairs(out, digits, at),
        None => Ok(None),
    }
}

/// The bytes that pairs of digits write, where those of the digits before a place are there.
fn add_pairs(out: Vec<u8>, digits: &[u8], start: usize) -> Result<Option<Vec<u8>>, AllocError>
    requires within { start ≤ length digits.now }
    requires so_far { unhexed digits.now ≡ behind out.items (unhexed (drop start digits.now)) }
    ensures { IfOk result (λ r. MatchOption r (unhexed digits.now ≡ None) (λ v. unhexed digits.now ≡ Some v.items)) }
{
    let mut out = out;
    let mut at = start;
    while digits.len() - at >= 2 {
        match pair(digits[at], digits[at + 1]) {
            Some(byte) => out.push(byte)?,
            None => return Ok(None),
        }
        at += 2;
    }
    if at == digits.len() {
        Ok(Some(out))
    } else {
        Ok(None)
    }
}
