//! Words of a line: paths, methods, versions and descriptors, modes and kinds.

ghost use Rattle.std.specs.Prelude.{◌≡◌, ◌≢◌, ◌↔◌, ℕ, List, IsTrue, IfOk, MatchOption};
ghost use Rattle.std.specs.String.{string_bytes};
ghost use Rattle.call_plan.specs.declared.calls.Mode.{Mode as AMode};
ghost use Rattle.service_table.specs.declared.kind.Kind.{Kind as AKind};
ghost use Rattle.call_plan.specs.LineForms.{IsTarget};
ghost use Rattle.call_plan.specs.Words.{IsWord, IsOptionalWord, field_of, kind_word, mode_word};

use crate::calls::Mode;
use hessian_graph::Chars;
use service_table::Kind;
use std::alloc::{AllocError, Global};
use std::str;

/// The most bytes that a word may have.
const WORD_LIMIT: usize = 255;

/// A service as a line names it.
#[derive(Clone, Copy)]
pub struct Target<'a> {
    pub path: &'a str,
    pub version: &'a str,
    pub method: &'a str,
    pub desc: &'a str,
}

/// The service that four fields name.
pub fn read_target<'a>(
    path: &'a [u8],
    version: &'a [u8],
    method: &'a [u8],
    desc: &'a [u8],
) -> Option<Target<'a>>
    ensures { MatchOption result
        ((p v m d : List ℕ) → IsTarget p v m d → path.now ≡ p → version.now ≡ field_of v → method.now ≡ m → desc.now ≡ field_of d → ⊥)
        (λ t. IsTarget t.path.now t.version.now t.method.now t.desc.now
        × (path.now ≡ t.path.now) × (version.now ≡ field_of t.version.now) × (method.now ≡ t.method.now) × (desc.now ≡ field_of t.desc.now)) }
{
    let path = word(path)?;
    let version = optional_word(version)?;
    let method = word(method)?;
    let desc = optional_word(desc)?;
    Some(Target {
        path,
        version,
        method,
        desc,
    })
}

/// A word that may be left out, in whose place `-` stands for the empty text.
fn optional_word(field: &[u8]) -> Option<&str>
    ensures { MatchOption result ((text : List ℕ) → IsOptionalWord text → field.now ≢ field_of text)
        (λ text. IsOptionalWord text.now × (field.now ≡ field_of text.now)) }
{
    if field == b"-".as_slice() {
        return Some("");
    }
    word(field)
}

/// The bytes as text, where they are a word.
fn word(field: &[u8]) -> Option<&str>
    ensures { MatchOption result (¬ IsWord field.now) (λ text. IsWord text.now × (field.now ≡ text.now)) }
{
    if !is_word(field) {
        return None;
    }
    match str::from_utf8(field) {
        Ok(word) => Some(word),
        Err(_) => None,
    }
}

/// Whether the bytes are a word.
fn is_word(bytes: &[u8]) -> bool
    ensures { IsTrue result ↔ IsWord bytes.now }
{
    !bytes.is_empty()
        && bytes.len() <= WORD_LIMIT
        && bytes.iter().all(|byte| 0x21 <= *byte && *byte <= 0x7e)
}

/// The mode of a word.
pub fn mode_of(word: &[u8]) -> Option<Mode>
    ensures { MatchOption result ((mode : AMode) → word.now ≢ mode_word mode) (λ mode. word.now ≡ mode_word mode) }
{
    match word {
        b"failover" => Some(Mode::Failover),
        b"failfast" => Some(Mode::Failfast),
        b"failsafe" => Some(Mode::Failsafe),
        b"forking" => Some(Mode::Forking),
        b"oneway" => Some(Mode::Oneway),
        _ => None,
    }
}

/// The kind of a word.
pub fn kind_of(word: &[u8]) -> Option<Kind>
    ensures { MatchOption result ((kind : AKind) → word.now ≢ kind_word kind) (λ kind. word.now ≡ kind_word kind) }
{
    match word {
        b"none" => Some(Kind::Void),
        b"echo" => Some(Kind::Echo),
        b"args" => Some(Kind::Args),
        b"twice" => Some(Kind::Twice),
        b"reverse" => Some(Kind::Reverse),
        b"sum" => Some(Kind::Sum),
        b"knot" => Some(Kind::Knot),
        b"throw" => Some(Kind::Throw),
        _ => None,
    }
}

/// A text of one's own.
pub fn chars(alloc: Global, text: &str) -> Result<Chars, AllocError>
    ensures { IfOk result (λ chars. chars ≡ text.now) }
{
    let text = String::from_str(alloc, text)?;
    Ok(Chars::from(text))
}
