//! What a token is by itself.

ghost use Rattle.std.specs.Prelude.{◌≡◌, ◌≢◌, ℕ, ℤ, ◌<◌, ◌^◌, ◌∷◌, ◌++◌, [], List, None, Some, IfOk, IfSome, MatchOption, FitsSigned, decimal, codes, All, IsTrue, ◌↔◌};
ghost use Rattle.std.specs.Fmt.{signed_decimal};
ghost use Rattle.std.specs.Int.{w32, w64};
ghost use Rattle.std.specs.String.{string_bytes};
ghost use Rattle.std.specs.List.{flat_map};
ghost use Rattle.std.specs.Str.{IsUtf8};
ghost use Rattle.graph_notation.specs.declared.element.Element.{Element};
ghost use Rattle.graph_notation.specs.Elements.{Reads, mark_byte, hex_pair};
ghost use Rattle.graph_notation.specs.Words.{IsReading, IsNoValue, IsNoMark, IsNoReference};

use crate::contents::unquote;
use crate::element::{Element, Mark};
use crate::hex::unhex;
use crate::numbers::{int, long, number};
use hessian_graph::{Chars, Octets, Value};
use simdutf8::basic::from_utf8;
use std::alloc::{AllocError, Global};

/// What a token is by itself, if anything.
#[tactic(auto, using(crate::proofs::Readings::no_reading))]
pub fn element_of(alloc: Global, token: &[u8]) -> Result<Option<Element>, AllocError>
    ensures { IfOk result (IsReading token.now) }
{
    if let Some(mark) = mark_of(token) {
        return Ok(Some(Element::Sign(mark)));
    }
    if let Some(element) = by_first_byte(alloc, token)? {
        return Ok(Some(element));
    }
    if let Some(number) = reference_of(token) {
        return Ok(Some(Element::Reference(number)));
    }
    if let Some(value) = value_of(token) {
        return Ok(Some(Element::Plain(value)));
    }
    if let Some(bytes) = binary_of(alloc, token)? {
        return Ok(Some(Element::Plain(Value::Bytes(bytes))));
    }
    match text_of(alloc, token)? {
        Some(text) => Ok(Some(Element::Words(text))),
        None => Ok(None),
    }
}

/// What a token is by the kind that its first byte tells. Where it's none of that kind, nothing is known of it.
fn by_first_byte(alloc: Global, token: &[u8]) -> Result<Option<Element>, AllocError>
    ensures { IfOk result (λ r. IfSome r (Reads token.now)) }
{
    if token.len() == 0 {
        return Ok(None);
    }
    match token[0] {
        b'"' => words(alloc, token),
        b'x' => bytes(alloc, token),
        b'#' => Ok(reference(token)),
        b'0'..=b'9' => Ok(digits(token)),
        _ => Ok(None),
    }
}

/// The element of a text.
fn words(alloc: Global, token: &[u8]) -> Result<Option<Element>, AllocError>
    ensures { IfOk result (λ r. IfSome r (Reads token.now)) }
{
    match text_of(alloc, token)? {
        Some(text) => Ok(Some(Element::Words(text))),
        None => Ok(None),
    }
}

/// The element of a list of bytes.
fn bytes(alloc: Global, token: &[u8]) -> Result<Option<Element>, AllocError>
    ensures { IfOk result (λ r. IfSome r (Reads token.now)) }
{
    match binary_of(alloc, token)? {
        Some(bytes) => Ok(Some(Element::Plain(Value::Bytes(bytes)))),
        None => Ok(None),
    }
}

/// The element of a reference.
fn reference(token: &[u8]) -> Option<Element>
    ensures { IfSome result (Reads token.now) }
{
    match reference_of(token) {
        Some(number) => Some(Element::Reference(number)),
        None => None,
    }
}

/// The element of a number that isn't negative.
fn digits(token: &[u8]) -> Option<Element>
    ensures { IfSome result (Reads token.now) }
{
    if let Some(number) = long_of(token) {
        return Some(Element::Plain(Value::Long(number)));
    }
    match int(token) {
        Some(number) => Some(Element::Plain(Value::Int(number))),
        None => None,
    }
}

/// The mark that a token is.
#[tactic(auto, using(crate::proofs::Readings::one_byte))]
fn mark_of(token: &[u8]) -> Option<Mark>
    ensures { MatchOption result (IsNoMark token.now) (λ m. token.now ≡ mark_byte m ∷ []) }
{
    if token.len() != 1 {
        return None;
    }
    mark(token[0])
}

/// The mark of a byte.
pub fn mark(byte: u8) -> Option<Mark>
    ensures { MatchOption result ((m : Mark) → byte ≢ mark_byte m) (λ m. byte ≡ mark_byte m) }
{
    match byte {
        b'[' => Some(Mark::BeginList),
        b']' => Some(Mark::EndList),
        b'{' => Some(Mark::BeginMap),
        b'}' => Some(Mark::EndMap),
        b'(' => Some(Mark::BeginFields),
        b')' => Some(Mark::EndFields),
        b',' => Some(Mark::Comma),
        b':' => Some(Mark::Colon),
        b'!' => Some(Mark::Named),
        _ => None,
    }
}

/// What stands behind a first byte.
fn behind(first: u8, token: &[u8]) -> Option<&[u8]>
    ensures { MatchOption result ((rest : List ℕ) → token.now ≢ first ∷ rest) (λ rest. token.now ≡ first ∷ rest.now) }
{
    if token.len() > 0 && token[0] == first {
        Some(&token[1..])
    } else {
        None
    }
}

/// The node's number that a token refers to.
fn reference_of(token: &[u8]) -> Option<u32>
    ensures { MatchOption result (IsNoReference token.now) (λ k. Reads token.now (Element.Reference k)) }
{
    match behind(b'#', token) {
        Some(digits) => number(digits),
        None => None,
    }
}

/// Whether a token is this word.
fn is(token: &[u8], word: &[u8]) -> bool
    ensures { IsTrue result ↔ token.now ≡ word.now }
{
    token == word
}

/// The value that a token is, unless it's a text, a list of bytes or a node.
#[tactic(auto, using(crate::proofs::Readings::no_value))]
fn value_of(token: &[u8]) -> Option<Value>
    ensures { MatchOption result (IsNoValue token.now) (λ v. Reads token.now (Element.Plain v)) }
{
    if let Some(value) = keyword(token) {
        return Some(value);
    }
    if let Some(number) = int(token) {
        return Some(Value::Int(number));
    }
    if let Some(number) = long_of(token) {
        return Some(Value::Long(number));
    }
    match date_of(token) {
        Some(number) => Some(Value::Date(number)),
        None => None,
    }
}

/// The value that a token is as one of three words.
#[tactic(auto, using(crate::proofs::Readings::reads_null, crate::proofs::Readings::reads_true, crate::proofs::Readings::reads_false))]
fn keyword(token: &[u8]) -> Option<Value>
    ensures { MatchOption result ((token.now ≢ codes "null") × (token.now ≢ codes "true") × (token.now ≢ codes "false")) (λ v. Reads token.now (Element.Plain v)) }
{
    if is(token, b"null") {
        Some(Value::Null)
    } else if is(token, b"true") {
        Some(Value::Bool(true))
    } else if is(token, b"false") {
        Some(Value::Bool(false))
    } else {
        None
    }
}

/// The long that a token is.
fn long_of(token: &[u8]) -> Option<i64>
    ensures { MatchOption result ((z : ℤ) → FitsSigned w64 z → token.now ≢ signed_decimal z ++ 0x4c ∷ [])
        (λ z. FitsSigned w64 z × (token.now ≡ signed_decimal z ++ 0x4c ∷ [])) }
{
    let end = token.len();
    if end == 0 || token[end - 1] != b'L' {
        return None;
    }
    long(&token[..end - 1])
}

/// The date that a token is.
fn date_of(token: &[u8]) -> Option<i64>
    ensures { MatchOption result ((z : ℤ) (digits : List ℕ) → FitsSigned w64 z → token.now ≡ 0x40 ∷ digits → digits ≢ signed_decimal z)
        (λ z. Reads token.now (Element.Plain (Value.Date z))) }
{
    match behind(b'@', token) {
        Some(digits) => long(digits),
        None => None,
    }
}

/// The list of bytes that a token is.
fn binary_of(alloc: Global, token: &[u8]) -> Result<Option<Octets>, AllocError>
    ensures { IfOk result (λ r. MatchOption r ((bytes digits : List ℕ) → All (λ b. b < 256) bytes → digits ≡ flat_map hex_pair bytes → token.now ≢ 0x78 ∷ digits)
        (λ bytes. Reads token.now (Element.Plain (Value.Bytes bytes)))) }
{
    match behind(b'x', token) {
        Some(digits) => match unhex(alloc, digits)? {
            Some(bytes) => Ok(Some(Octets::from(bytes))),
            None => Ok(None),
        },
        None => Ok(None),
    }
}

/// What stands between the quotes of a token.
fn between(token: &[u8]) -> Option<&[u8]>
    ensures { MatchOption result ((inner : List ℕ) → token.now ≢ 0x22 ∷ (inner ++ 0x22 ∷ [])) (λ inner. token.now ≡ 0x22 ∷ (inner.now ++ 0x22 ∷ [])) }
{
    let end = token.len();
    if end < 2 || token[0] != b'"' || token[end - 1] != b'"' {
        return None;
    }
    Some(&token[1..end - 1])
}

/// The text that a token is.
fn text_of(alloc: Global, token: &[u8]) -> Result<Option<Chars>, AllocError>
    ensures { IfOk result (λ r. MatchOption r ((text : List ℕ) → Reads token.now (Element.Words text) → ⊥) (λ text. Reads token.now (Element.Words text))) }
{
    match between(token) {
        Some(inner) => match unquote(alloc, inner)? {
            Some(bytes) => Ok(text(bytes)),
            None => Ok(None),
        },
        None => Ok(None),
    }
}

/// The text of these bytes, where they are UTF-8.
fn text(bytes: Vec<u8>) -> Option<Chars>
    ensures { MatchOption result (IsUtf8 bytes.items → ⊥) (λ text. (text ≡ bytes.items) × IsUtf8 bytes.items) }
{
    if from_utf8(bytes.as_slice()).is_err() {
        return None;
    }
    // SAFETY: the bytes were just found to be UTF-8.
    let text = unsafe { String::from_utf8_unchecked(bytes) };
    Some(Chars::from(text))
}
