//! The fields of a line of the first form, cut from its front.

ghost use Rattle.std.specs.Prelude.{◌≡◌, ◌≢◌, ◌↔◌, ℕ, ℤ, ◌++◌, List, ◌∷◌, IsTrue, MatchOption, codes};
ghost use Rattle.std.specs.Fmt.{signed_decimal};
ghost use Rattle.std.specs.Int.{w32};
ghost use Rattle.std.specs.Int.RustNames.{FitsSigned};
ghost use Rattle.dubbo_play.specs.FirstForm.{Call, IsCall, IsWord, Line, Says, call_line, service_line, target_text};
ghost use Rattle.dubbo_play.specs.Fields.{said};

use super::cuts::{after, cut_at};
use itoa::Buffer;
use std::str;

/// The most bytes that a path or a method may have.
const WORD_LIMIT: usize = 255;

/// What a line says, by its fields.
pub enum Fields<'a> {
    /// The line is empty or a comment.
    Nothing,
    /// The line names a service.
    Service {
        path: &'a str,
        method: &'a str,
    },
    /// The line names a call and the int that it sends.
    Call {
        path: &'a str,
        method: &'a str,
        argument: i32,
    },
}

/// What a line says, or none where it isn't written like a line of the first form.
pub fn line_fields(line: &[u8]) -> Option<Fields<'_>>
    ensures { MatchOption result ((says : Line) → ¬ Says line.now says) (λ f. Says line.now (said f)) }
{
    if line.is_empty() || line[0] == b'#' {
        return Some(Fields::Nothing);
    }
    match service(line) {
        Some((path, method)) => Some(Fields::Service { path, method }),
        None => {
            let (path, method, argument) = call(line)?;
            Some(Fields::Call {
                path,
                method,
                argument,
            })
        }
    }
}

/// The path and the method of a service line.
fn service(line: &[u8]) -> Option<(&str, &str)>
    ensures { MatchOption result
        ((p m : List ℕ) → IsWord p → IsWord m → line.now ≢ service_line p m)
        (λ r. IsWord r.0.now × IsWord r.1.now × (line.now ≡ service_line r.0.now r.1.now)) }
{
    let (path, method, rest) = target(after(line, b"service ")?)?;
    if rest == b"echo".as_slice() {
        Some((path, method))
    } else {
        None
    }
}

/// The path, the method and the int of a call line.
fn call(line: &[u8]) -> Option<(&str, &str, i32)>
    ensures { MatchOption result ((c : Call) → IsCall c → line.now ≢ call_line c)
        (λ r. let c : Call = record { path = r.0.now; method = r.1.now; argument = r.2 } in
        IsCall c × (line.now ≡ call_line c)) }
{
    let (path, method, rest) = target(after(line, b"call failover - - - ")?)?;
    let argument = int(rest)?;
    Some((path, method, argument))
}

/// The path and the method that stand at the front, and what follows their target.
fn target(bytes: &[u8]) -> Option<(&str, &str, &[u8])>
    ensures { MatchOption result
        ((p m rest : List ℕ) → IsWord p → IsWord m → bytes.now ≢ target_text p m ++ rest)
        (λ r. IsWord r.0.now × IsWord r.1.now
        × (bytes.now ≡ target_text r.0.now r.1.now ++ r.2.now)) }
{
    let (path, rest) = word(bytes)?;
    let (method, rest) = word(after(rest, b"- ")?)?;
    let rest = after(rest, b"Ljava/lang/Object; ")?;
    Some((path, method, rest))
}

/// The word at the front, which ends at the first space, and what follows that space.
fn word(bytes: &[u8]) -> Option<(&str, &[u8])>
    ensures { MatchOption result ((w rest : List ℕ) → IsWord w → bytes.now ≢ w ++ 0x20 ∷ rest)
        (λ r. IsWord r.0.now × (bytes.now ≡ r.0.now ++ 0x20 ∷ r.1.now)) }
{
    let (word, rest) = cut_at(bytes, b' ')?;
    if !is_word(word) {
        return None;
    }
    match str::from_utf8(word) {
        Ok(word) => Some((word, rest)),
        Err(_) => None,
    }
}

/// Whether the bytes are a path or a method.
fn is_word(bytes: &[u8]) -> bool
    ensures { IsTrue result ↔ IsWord bytes.now }
{
    !bytes.is_empty()
        && bytes.len() <= WORD_LIMIT
        && bytes.iter().all(|byte| 0x21 <= *byte && *byte <= 0x7e)
}

/// The int that the bytes write: in decimal, with no leading zero and no sign but a negative's.
fn int(bytes: &[u8]) -> Option<i32>
    ensures { MatchOption result ((z : ℤ) → FitsSigned w32 z → bytes.now ≢ signed_decimal z)
        (λ z. FitsSigned w32 z × (bytes.now ≡ signed_decimal z)) }
{
    let number = str::from_utf8(bytes).ok()?.parse::<i32>().ok()?;
    let mut buffer = Buffer::new();
    if buffer.format(number).as_bytes() == bytes {
        Some(number)
    } else {
        None
    }
}
