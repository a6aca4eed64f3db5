//! The writer's spelling of texts and binaries.

ghost use Rattle.std.specs.Prelude.{◌≡◌, ◌++◌, ◌∷◌, ◌/◌, ◌%◌, ◌<◌, ◌≤◌, length, take, IfOk, OnErr, OnOk, encode_utf8};
ghost use Rattle.std.specs.Char.Escape.{encode_utf16};
ghost use Rattle.std.specs.Str.{IsCharBoundary};
ghost use Rattle.hessian_text.specs.Units.{utf16};
ghost use Rattle.hessian_text.specs.Written.{AppendsBinary, AppendsPlain, AppendsText, BeginsWith, by_units, final_head, inner_code};

use crate::stage::Kind;
use crate::units::{CHUNK, first_chunk, low_run};
use std::alloc::{AllocError, Global};

/// The code of a chunk that is not the last.
fn inner_code(kind: Kind) -> u8
    ensures { result ≡ inner_code kind }
{
    match kind {
        Kind::Text => b'R',
        Kind::Binary => b'A',
    }
}

/// Appends the head of a text's last chunk.
fn append_text_head(out: &mut Vec<u8>, units: usize) -> Result<(), AllocError>
    requires { units ≤ 32768 }
    ensures ok { OnOk result (out.new.items ≡ out.old.items ++ final_head Kind.Text units) }
    ensures err { OnErr result (out.new.items ≡ out.old.items) }
{
    let high = (units / 256) as u8;
    let low = (units % 256) as u8;
    if units < 32 {
        out.extend_from_slice(&[units as u8])
    } else if units < 1024 {
        out.extend_from_slice(&[0x30 + high, low])
    } else {
        out.extend_from_slice(&[b'S', high, low])
    }
}

/// Appends the head of a binary's last chunk.
fn append_binary_head(out: &mut Vec<u8>, units: usize) -> Result<(), AllocError>
    requires { units ≤ 32768 }
    ensures ok { OnOk result (out.new.items ≡ out.old.items ++ final_head Kind.Binary units) }
    ensures err { OnErr result (out.new.items ≡ out.old.items) }
{
    let high = (units / 256) as u8;
    let low = (units % 256) as u8;
    if units < 16 {
        out.extend_from_slice(&[0x20 + units as u8])
    } else if units < 1024 {
        out.extend_from_slice(&[0x34 + high, low])
    } else {
        out.extend_from_slice(&[b'B', high, low])
    }
}

/// Appends the head of the last chunk.
fn append_head(kind: Kind, out: &mut Vec<u8>, units: usize) -> Result<(), AllocError>
    requires { units ≤ 32768 }
    ensures ok { OnOk result (out.new.items ≡ out.old.items ++ final_head kind units) }
    ensures err { OnErr result (out.new.items ≡ out.old.items) }
{
    match kind {
        Kind::Text => append_text_head(out, units),
        Kind::Binary => append_binary_head(out, units),
    }
}

/// Appends a whole chunk of bytes that isn't the last.
fn append_inner(kind: Kind, out: &mut Vec<u8>, chunk: &[u8]) -> Result<(), AllocError>
    ensures ok { OnOk result (out.new.items
        ≡ out.old.items ++ (inner_code kind ∷ 0x80 ∷ 0x00 ∷ chunk.now)) }
    ensures err { OnErr result (BeginsWith out.old.items out.new.items) }
{
    out.extend_from_slice(&[inner_code(kind), 0x80, 0x00])?;
    out.extend_from_slice(chunk)
}

/// Appends the last chunk.
fn append_last(kind: Kind, out: &mut Vec<u8>, chunk: &[u8]) -> Result<(), AllocError>
    requires { length chunk.now ≤ 32768 }
    ensures ok { OnOk result (out.new.items
        ≡ out.old.items ++ (final_head kind (length chunk.now) ++ chunk.now)) }
    ensures err { OnErr result (BeginsWith out.old.items out.new.items) }
{
    append_head(kind, out, chunk.len())?;
    out.extend_from_slice(chunk)
}

/// Appends the chunks of bytes that are their own forms.
fn append_plain(kind: Kind, out: &mut Vec<u8>, bytes: &[u8]) -> Result<(), AllocError>
    ensures ok { OnOk result (AppendsPlain kind out.old.items bytes.now out.new.items) }
    ensures err { OnErr result (BeginsWith out.old.items out.new.items) }
{
    let mut at = 0;
    while bytes.len() - at > CHUNK {
        append_inner(kind, out, &bytes[at..at + CHUNK])?;
        at += CHUNK;
    }
    append_last(kind, out, &bytes[at..])
}

/// Appends the writer's spelling of a binary. After a refusal `out` is unchanged.
pub fn write_binary(_alloc: Global, out: &mut Vec<u8>, bytes: &[u8]) -> Result<(), AllocError>
    ensures ok { OnOk result (AppendsBinary out.old.items bytes.now out.new.items) }
    ensures err { OnErr result (out.new.items ≡ out.old.items) }
{
    let before = out.len();
    let outcome = append_plain(Kind::Binary, out, bytes);
    if outcome.is_err() {
        out.truncate(before);
    }
    outcome
}

/// Appends one unit in its one, two or three bytes.
#[tactic(auto, using(crate::proofs::Shapes::encode_one, crate::proofs::Shapes::encode_two, crate::proofs::Shapes::encode_three))]
fn append_unit(out: &mut Vec<u8>, unit: u16) -> Result<(), AllocError>
    ensures ok { OnOk result (out.new.items ≡ out.old.items ++ encode_utf8 unit) }
    ensures err { OnErr result (out.new.items ≡ out.old.items) }
{
    let low = (0x80 + unit % 64) as u8;
    match unit {
        0x0000..=0x007f => out.extend_from_slice(&[unit as u8]),
        0x0080..=0x07ff => out.extend_from_slice(&[(0xc0 + unit / 64) as u8, low]),
        _ => out.extend_from_slice(&[
            (0xe0 + unit / 4096) as u8,
            (0x80 + unit / 64 % 64) as u8,
            low,
        ]),
    }
}

/// Appends a character, each of its units by itself.
fn append_character(out: &mut Vec<u8>, character: char) -> Result<(), AllocError>
    ensures ok { OnOk result (out.new.items
        ≡ out.old.items ++ by_units (encode_utf16 character)) }
    ensures err { OnErr result (BeginsWith out.old.items out.new.items) }
{
    let code = character as u32;
    if code < 0x10000 {
        return append_unit(out, code as u16);
    }
    let over = code - 0x10000;
    append_unit(out, (0xd800 + over / 0x400) as u16)?;
    append_unit(out, (0xdc00 + over % 0x400) as u16)
}

/// Appends the characters of one or two units at the front of a text: of one, as many as stand
/// there; of two, the first. Answers in how many bytes of the text they are.
fn append_front(out: &mut Vec<u8>, text: &str) -> Result<usize, AllocError>
    ensures cut { IfOk result (IsCharBoundary text.now) }
    ensures some { 0 < length text.now → IfOk result (λ len. 0 < len) }
    ensures ok { IfOk result (λ len. out.new.items
        ≡ out.old.items ++ by_units (utf16 (take len text.now))) }
    ensures err { OnErr result (BeginsWith out.old.items out.new.items) }
{
    let run = low_run(text.as_bytes());
    if run > 0 {
        out.extend_from_slice(text[..run].as_bytes())?;
        return Ok(run);
    }
    let Some(first) = text.chars().next() else {
        return Ok(0);
    };
    append_character(out, first)?;
    Ok(first.len_utf8())
}

/// Appends the characters of a text, each of their units by itself.
fn append_characters(out: &mut Vec<u8>, text: &str) -> Result<(), AllocError>
    ensures ok { OnOk result (out.new.items ≡ out.old.items ++ by_units (utf16 text.now)) }
    ensures err { OnErr result (BeginsWith out.old.items out.new.items) }
{
    let mut at = 0;
    while at < text.len() {
        at += append_front(out, &text[at..])?;
    }
    Ok(())
}

/// Appends a whole chunk of a text that isn't the last.
fn append_inner_text(out: &mut Vec<u8>, text: &str, units: usize) -> Result<(), AllocError>
    requires { units ≤ 32768 }
    ensures ok { OnOk result (out.new.items
        ≡ out.old.items ++ (0x52 ∷ units / 256 ∷ units % 256 ∷ by_units (utf16 text.now))) }
    ensures err { OnErr result (BeginsWith out.old.items out.new.items) }
{
    let high = (units / 256) as u8;
    let low = (units % 256) as u8;
    out.extend_from_slice(&[b'R', high, low])?;
    append_characters(out, text)
}

/// Appends the last chunk of a text.
fn append_last_text(out: &mut Vec<u8>, text: &str, units: usize) -> Result<(), AllocError>
    requires { units ≤ 32768 }
    ensures ok { OnOk result (out.new.items
        ≡ out.old.items ++ (final_head Kind.Text units ++ by_units (utf16 text.now))) }
    ensures err { OnErr result (BeginsWith out.old.items out.new.items) }
{
    append_text_head(out, units)?;
    append_characters(out, text)
}

/// Appends the chunks of a text.
fn append_chunks(out: &mut Vec<u8>, text: &str) -> Result<(), AllocError>
    ensures ok { OnOk result (AppendsText out.old.items text.now out.new.items) }
    ensures err { OnErr result (BeginsWith out.old.items out.new.items) }
{
    let mut at = 0;
    let mut chunk = first_chunk(text);
    while chunk.len < text.len() - at {
        append_inner_text(out, &text[at..at + chunk.len], chunk.units)?;
        at += chunk.len;
        chunk = first_chunk(&text[at..]);
    }
    append_last_text(out, &text[at..], chunk.units)
}

/// Appends the chunks of a text.
fn append_text(out: &mut Vec<u8>, text: &str) -> Result<(), AllocError>
    ensures ok { OnOk result (AppendsText out.old.items text.now out.new.items) }
    ensures err { OnErr result (BeginsWith out.old.items out.new.items) }
{
    if text.is_ascii() {
        append_plain(Kind::Text, out, text.as_bytes())
    } else {
        append_chunks(out, text)
    }
}

/// Appends the writer's spelling of a text. After a refusal `out` is unchanged.
pub fn write_text(_alloc: Global, out: &mut Vec<u8>, text: &str) -> Result<(), AllocError>
    ensures ok { OnOk result (AppendsText out.old.items text.now out.new.items) }
    ensures err { OnErr result (out.new.items ≡ out.old.items) }
{
    let before = out.len();
    let outcome = append_text(out, text);
    if outcome.is_err() {
        out.truncate(before);
    }
    outcome
}
