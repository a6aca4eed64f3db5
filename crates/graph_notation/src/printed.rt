//! The one token that is written for an element.

ghost use Rattle.std.specs.Prelude.{◌≡◌, ℕ, List, ◌+◌, ◌<◌, ◌≤◌, ◌∷◌, ◌++◌, [], ◌-◌, OnOk, OnErr, IfOk, length, take, drop, get_or, true};
ghost use Rattle.std.specs.List.{flat_map};
ghost use Rattle.std.specs.Str.{IsUtf8};
ghost use Rattle.graph_notation.specs.Appending.{BeginsWith};
ghost use Rattle.graph_notation.specs.Notation.{IsSoundElement};
ghost use Rattle.graph_notation.specs.Pressing.{IsOn, element_of};
ghost use Rattle.graph_notation.specs.Elements.{mark_byte, escaped, quoted, word_of};

use crate::element::Mark;
use crate::written_bytes::{digit, see, write_pairs};
use crate::written_numbers::{write_int, write_long, write_reference};
use hessian_graph::Value;
use std::alloc::AllocError;

/// The most bytes of a text that is looked at as a whole first.
const SHORT: usize = 64;

/// The byte of a mark.
pub fn byte_of(mark: Mark) -> u8
    ensures { result ≡ mark_byte mark }
{
    match mark {
        Mark::BeginList => b'[',
        Mark::EndList => b']',
        Mark::BeginMap => b'{',
        Mark::EndMap => b'}',
        Mark::BeginFields => b'(',
        Mark::EndFields => b')',
        Mark::Comma => b',',
        Mark::Colon => b':',
        Mark::Named => b'!',
    }
}

/// Appends a byte of a text that doesn't stand for itself.
fn write_escaped(out: &mut Vec<u8>, byte: u8) -> Result<(), AllocError>
    ensures written { OnOk result (out.new.items ≡ out.old.items ++ escaped byte) }
    ensures err { OnErr result (out.new.items ≡ out.old.items) }
{
    if byte == b'"' {
        out.extend_from_slice(b"\\\"")?;
    } else if byte == b'\\' {
        out.extend_from_slice(b"\\\\")?;
    } else if byte < 0x10 {
        out.extend_from_slice(&[b'\\', b'u', b'{', digit(byte), b'}'])?;
    } else if byte < 0x20 || byte == 0x7f {
        out.extend_from_slice(&[b'\\', b'u', b'{', digit(byte / 16), digit(byte % 16), b'}'])?;
    } else {
        out.push(byte)?;
    }
    Ok(())
}

/// 0 for a byte of a text that stands for itself, and 1 for any other.
fn flaw(byte: u8) -> u8
    ensures { result ≡ 0 → escaped byte ≡ byte ∷ [] }
{
    if byte < 0x20 || byte == 0x7f || byte == b'"' || byte == b'\\' {
        1
    } else {
        0
    }
}

/// Whether each byte of a block stands for itself.
#[inline(always)]
fn all_stand(block: &[u8]) -> bool
    ensures { result ≡ true → (k : ℕ) → k < length block.now → escaped (get_or block.now k 0) ≡ get_or block.now k 0 ∷ [] }
{
    let mut most = 0;
    for byte in block {
        most = most.max(flaw(*byte));
    }
    most == 0
}

/// Whether each byte of a text stands for itself, looked at in blocks, the last of which may begin within the one before.
#[inline(always)]
fn stand_by_blocks(text: &[u8], size: usize) -> bool
    requires some { 0 < size }
    requires whole { size ≤ length text.now }
    ensures { result ≡ true → (k : ℕ) → k < length text.now → escaped (get_or text.now k 0) ≡ get_or text.now k 0 ∷ [] }
{
    let last = text.len() - size;
    let mut at = 0;
    while at < last {
        if !all_stand(&text[at..at + size]) {
            return false;
        }
        at += size;
    }
    all_stand(&text[last..])
}

/// Whether each byte of a short text stands for itself.
#[inline(always)]
fn stand_at_once(text: &[u8]) -> bool
    ensures { result ≡ true → (k : ℕ) → k < length text.now → escaped (get_or text.now k 0) ≡ get_or text.now k 0 ∷ [] }
{
    if text.len() < 8 {
        all_stand(text)
    } else if text.len() < 16 {
        stand_by_blocks(text, 8)
    } else {
        stand_by_blocks(text, 16)
    }
}

/// Appends a run of bytes that stand for themselves, and the byte behind them, which doesn't.
fn write_run(out: &mut Vec<u8>, text: &[u8], from: usize, at: usize) -> Result<(), AllocError>
    requires from { from ≤ at }
    requires at { at < length text.now }
    ensures written { OnOk result (out.new.items ≡ (out.old.items ++ take (at - from) (drop from text.now)) ++ escaped (get_or text.now at 0)) }
    ensures begins { BeginsWith out.old.items out.new.items }
{
    out.extend_from_slice(&text[from..at])?;
    write_escaped(out, text[at])
}

/// Goes past a byte, and answers where the run of bytes that stand for themselves begins now.
fn go_past(out: &mut Vec<u8>, text: &[u8], from: usize, at: usize) -> Result<usize, AllocError>
    requires from { from ≤ at }
    requires at { at < length text.now }
    ensures low { IfOk result (λ next. next ≤ at + 1) }
    ensures written { IfOk result (λ next. out.new.items ++ take (at + 1 - next) (drop next text.now)
        ≡ (out.old.items ++ take (at - from) (drop from text.now)) ++ escaped (get_or text.now at 0)) }
    ensures begins { BeginsWith out.old.items out.new.items }
{
    if flaw(text[at]) == 0 {
        Ok(from)
    } else {
        match write_run(out, text, from, at) {
            Ok(()) => Ok(at + 1),
            Err(error) => Err(error),
        }
    }
}

/// Goes past some bytes one by one, and answers where the run of bytes that stand for themselves begins now.
fn go_through(
    out: &mut Vec<u8>,
    text: &[u8],
    first: usize,
    start: usize,
    end: usize,
) -> Result<usize, AllocError>
    requires first { first ≤ start }
    requires start { start ≤ end }
    requires end { end ≤ length text.now }
    ensures low { IfOk result (λ next. next ≤ end) }
    ensures written { (before : List ℕ) → IsOn before text.now out.old.items first start
        → IfOk result (λ next. IsOn before text.now out.new.items next end) }
    ensures begins { BeginsWith out.old.items out.new.items }
{
    let mut from = first;
    for at in start..end {
        from = go_past(out, text, from, at)?;
    }
    Ok(from)
}

/// The same of a block, at once where each byte stands for itself.
fn go_past_block(
    out: &mut Vec<u8>,
    text: &[u8],
    first: usize,
    start: usize,
    end: usize,
) -> Result<usize, AllocError>
    requires first { first ≤ start }
    requires start { start ≤ end }
    requires end { end ≤ length text.now }
    ensures low { IfOk result (λ next. next ≤ end) }
    ensures written { (before : List ℕ) → IsOn before text.now out.old.items first start
        → IfOk result (λ next. IsOn before text.now out.new.items next end) }
    ensures begins { BeginsWith out.old.items out.new.items }
{
    if all_stand(&text[start..end]) {
        Ok(first)
    } else {
        go_through(out, text, first, start, end)
    }
}

/// Appends the content of a text: runs of bytes that stand for themselves, and the others one by one.
fn write_content(out: &mut Vec<u8>, text: &[u8]) -> Result<(), AllocError>
    ensures written { OnOk result (out.new.items ≡ out.old.items ++ flat_map escaped text.now) }
    ensures begins { BeginsWith out.old.items out.new.items }
{
    let mut from = 0;
    let mut at = 0;
    while at < text.len() {
        let end = at + (text.len() - at).min(64);
        from = go_past_block(out, text, from, at, end)?;
        at = end;
    }
    out.extend_from_slice(&text[from..])?;
    Ok(())
}

/// Appends a short text in quotes, each byte of which stands for itself.
#[inline(always)]
fn write_as_is(out: &mut Vec<u8>, text: &[u8]) -> Result<(), AllocError>
    requires short { length text.now ≤ 64 }
    requires stands { (k : ℕ) → k < length text.now → escaped (get_or text.now k 0) ≡ get_or text.now k 0 ∷ [] }
    ensures written { OnOk result (out.new.items ≡ out.old.items ++ quoted text.now) }
    ensures err { OnErr result (out.new.items ≡ out.old.items) }
{
    out.reserve(text.len() + 2)?;
    out.push_reserved(b'"');
    out.extend_from_slice(text)?;
    out.push_reserved(b'"');
    Ok(())
}

/// Appends any text in quotes.
fn write_quoted(out: &mut Vec<u8>, text: &[u8]) -> Result<(), AllocError>
    ensures written { OnOk result (out.new.items ≡ out.old.items ++ quoted text.now) }
    ensures begins { BeginsWith out.old.items out.new.items }
{
    out.push(b'"')?;
    write_content(out, text)?;
    out.push(b'"')?;
    Ok(())
}

/// Appends any text in quotes. After a refusal `out` is unchanged.
fn write_whole(out: &mut Vec<u8>, text: &[u8]) -> Result<(), AllocError>
    ensures written { OnOk result (out.new.items ≡ out.old.items ++ quoted text.now) }
    ensures err { OnErr result (out.new.items ≡ out.old.items) }
{
    let before = out.len();
    let outcome = write_quoted(out, text);
    if outcome.is_err() {
        out.truncate(before);
    }
    outcome
}

/// Appends a text as it stands in a notation: in quotes, with its quotes, backslashes and control characters escaped.
///
/// After a refusal `out` is unchanged.
pub fn write_text(out: &mut Vec<u8>, text: &str) -> Result<(), AllocError>
    ensures fits { IsUtf8 text.now }
    ensures written { OnOk result (out.new.items ≡ out.old.items ++ quoted text.now) }
    ensures err { OnErr result (out.new.items ≡ out.old.items) }
{
    let bytes = text.as_bytes();
    if bytes.len() <= SHORT && stand_at_once(bytes) {
        write_as_is(out, bytes)
    } else {
        write_whole(out, bytes)
    }
}

/// Appends a value that is no node, or the number of a node that has begun. Ints are looked at first.
#[inline(always)]
pub fn write_value(out: &mut Vec<u8>, value: &Value) -> Result<(), AllocError>
    ensures sound { OnOk result (IsSoundElement (element_of value.now)) }
    ensures written { OnOk result (out.new.items ≡ out.old.items ++ word_of value.now) }
{
    match value {
        Value::Int(number) => write_int(out, *number),
        _ => write_any(out, value),
    }
}

/// Appends any such value.
fn write_any(out: &mut Vec<u8>, value: &Value) -> Result<(), AllocError>
    ensures sound { OnOk result (IsSoundElement (element_of value.now)) }
    ensures written { OnOk result (out.new.items ≡ out.old.items ++ word_of value.now) }
{
    match value {
        Value::Null => {
            out.extend_from_slice(b"null")?;
            Ok(())
        }
        Value::Bool(true) => {
            out.extend_from_slice(b"true")?;
            Ok(())
        }
        Value::Bool(false) => {
            out.extend_from_slice(b"false")?;
            Ok(())
        }
        Value::Int(number) => write_int(out, *number),
        Value::Long(number) => {
            write_long(out, *number)?;
            out.push(b'L')?;
            Ok(())
        }
        Value::Date(number) => {
            out.push(b'@')?;
            write_long(out, *number)
        }
        Value::Bytes(bytes) => {
            let bytes = bytes.as_slice();
            see(bytes);
            out.push(b'x')?;
            write_pairs(out, bytes)
        }
        Value::Text(text) => write_text(out, text.as_str()),
        Value::Node(number) => write_reference(out, *number),
    }
}
