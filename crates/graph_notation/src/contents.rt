//! The contents of texts.

ghost use Rattle.std.specs.Prelude.{◌≡◌, ◌<◌, ◌≤◌, [], length, None, Some, IfOk, IfSome, MatchOption};
ghost use Rattle.graph_notation.specs.Elements.{is_control};
ghost use Rattle.graph_notation.specs.Unquoting.{digit_of, unquoted, Small, Turns, ArePlain, turn, one_digit};

use crate::plain::plain_end;
use std::alloc::{AllocError, Global};

/// Where the reading of a text's content stands.
#[derive(Clone, Copy)]
pub enum Mode {
    /// Between characters.
    Plain,
    /// Behind `\`.
    Escape,
    /// Behind `\u`.
    Brace,
    /// Behind `\u{` and so many digits, which write this number.
    Digits(u8, u32),
}

/// The number of a hexadecimal digit in lower case.
fn digit(byte: u8) -> Option<u8>
    ensures digit { result ≡ digit_of byte }
    ensures small { IfSome result (λ d. d < 16) }
{
    if byte >= b'0' && byte <= b'9' {
        Some(byte - b'0')
    } else if byte >= b'a' && byte <= b'f' {
        Some(byte - 0x57)
    } else {
        None
    }
}

/// Whether a byte is U+0000 to U+001F or U+007F.
fn is_control(byte: u8) -> bool
    ensures { result ≡ is_control byte }
{
    byte < 0x20 || byte == 0x7f
}

/// A byte between characters.
fn plain_byte(byte: u8, out: &mut Vec<u8>) -> Result<Option<Mode>, AllocError>
    ensures turns { IfOk result (Turns Mode.Plain byte out.old.items out.new.items) }
    ensures small { IfOk result (λ m. IfSome m Small) }
{
    if byte == b'\\' {
        Ok(Some(Mode::Escape))
    } else if is_control(byte) || byte == b'"' {
        Ok(None)
    } else {
        out.push(byte)?;
        Ok(Some(Mode::Plain))
    }
}

/// The byte behind `\`.
fn escaped_byte(byte: u8, out: &mut Vec<u8>) -> Result<Option<Mode>, AllocError>
    ensures turns { IfOk result (Turns Mode.Escape byte out.old.items out.new.items) }
    ensures small { IfOk result (λ m. IfSome m Small) }
{
    if byte == b'u' {
        Ok(Some(Mode::Brace))
    } else if byte == b'"' || byte == b'\\' {
        out.push(byte)?;
        Ok(Some(Mode::Plain))
    } else {
        Ok(None)
    }
}

/// The byte behind `\u`.
fn brace(byte: u8) -> Option<Mode>
    ensures opens { MatchOption result (turn Mode.Brace byte ≡ None) (λ m. turn Mode.Brace byte ≡ Some (record { mode = m; adds = [] })) }
    ensures small { IfSome result Small }
{
    if byte == b'{' {
        Some(Mode::Digits(0, 0))
    } else {
        None
    }
}

/// One digit more.
#[tactic(auto, using(crate::proofs::Digits::fits, crate::proofs::Digits::room))]
fn more(digit: Option<u8>, count: u8, value: u32) -> Option<Mode>
    requires digit { IfSome digit (λ d. d < 16) }
    requires small { Small (Mode.Digits count value) }
    ensures more { MatchOption result (one_digit digit count value ≡ None) (λ m. one_digit digit count value ≡ Some (record { mode = m; adds = [] })) }
    ensures small { IfSome result Small }
{
    match digit {
        Some(digit) => {
            if count < 6 {
                Some(Mode::Digits(count + 1, value * 16 + u32::from(digit)))
            } else {
                None
            }
        }
        None => None,
    }
}

/// The character that digits name, at their `}`.
#[tactic(auto, using(crate::proofs::Digits::no_scalar))]
fn character(count: u8, value: u32, out: &mut Vec<u8>) -> Result<Option<Mode>, AllocError>
    ensures turns { IfOk result (Turns (Mode.Digits count value) 0x7d out.old.items out.new.items) }
    ensures small { IfOk result (λ m. IfSome m Small) }
{
    if count == 0 {
        return Ok(None);
    }
    match char::from_u32(value) {
        Some(character) => {
            let mut buffer = [0u8; 4];
            out.extend_from_slice(character.encode_utf8(&mut buffer).as_bytes())?;
            Ok(Some(Mode::Plain))
        }
        None => Ok(None),
    }
}

/// A byte inside `\u{..}`.
fn inside(count: u8, value: u32, byte: u8, out: &mut Vec<u8>) -> Result<Option<Mode>, AllocError>
    requires { Small (Mode.Digits count value) }
    ensures turns { IfOk result (Turns (Mode.Digits count value) byte out.old.items out.new.items) }
    ensures small { IfOk result (λ m. IfSome m Small) }
{
    if byte == b'}' {
        character(count, value, out)
    } else {
        Ok(more(digit(byte), count, value))
    }
}

/// One byte.
fn take(mode: Mode, byte: u8, out: &mut Vec<u8>) -> Result<Option<Mode>, AllocError>
    requires { Small mode }
    ensures turns { IfOk result (Turns mode byte out.old.items out.new.items) }
    ensures small { IfOk result (λ m. IfSome m Small) }
{
    match mode {
        Mode::Plain => plain_byte(byte, out),
        Mode::Escape => escaped_byte(byte, out),
        Mode::Brace => Ok(brace(byte)),
        Mode::Digits(count, value) => inside(count, value, byte, out),
    }
}

/// The place behind the bytes that stand for themselves from a place on, where the reading is between characters.
fn run_end(mode: Mode, inner: &[u8], at: usize) -> usize
    requires { at ≤ length inner.now }
    ensures low { at ≤ result }
    ensures within { result ≤ length inner.now }
    ensures plain { at < result → (mode ≡ Mode.Plain) × ArePlain inner.now at result }
{
    match mode {
        Mode::Plain => plain_end(inner, at),
        _ => at,
    }
}

/// The bytes of the text whose content stands between the quotes.
pub fn unquote(alloc: Global, inner: &[u8]) -> Result<Option<Vec<u8>>, AllocError>
    ensures { IfOk result (λ r. MatchOption r (unquoted Mode.Plain inner.now ≡ None) (λ v. unquoted Mode.Plain inner.now ≡ Some v.items)) }
{
    let mut out = Vec::with_capacity(alloc, inner.len())?;
    let mut mode = Mode::Plain;
    let mut at = 0;
    while at < inner.len() {
        let end = run_end(mode, inner, at);
        if at < end {
            out.extend_from_slice(&inner[at..end])?;
            at = end;
        } else {
            match take(mode, inner[at], &mut out)? {
                Some(next) => mode = next,
                None => return Ok(None),
            }
            at += 1;
        }
    }
    match mode {
        Mode::Plain => Ok(Some(out)),
        _ => Ok(None),
    }
}
