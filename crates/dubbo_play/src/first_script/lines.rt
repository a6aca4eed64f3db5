//! The lines of a script, taken one at a time.

ghost use Rattle.std.specs.Prelude.{◌≡◌, ◌↔◌, ℕ, ◌<◌, ◌≤◌, ◌++◌, List, [], ◌∷◌, length, IsTrue, IfOk};
ghost use Rattle.std.specs.Bool.{OnFalse, OnTrue};
ghost use Rattle.std.specs.List.{Contains};
ghost use Rattle.dubbo_play.specs.FirstForm.{Line, IsCall, service_line};
ghost use Rattle.dubbo_play.specs.FirstScript.{IsOfFirstForm, lines_of};
ghost use Rattle.dubbo_play.specs.Reading.{AreRead};

use super::FirstCall;
use super::cuts::cut_at;
use super::fields::{Fields, line_fields};
use super::services::Services;
use std::alloc::{AllocError, Global};

/// The most calls that a script may have.
const CALL_LIMIT: usize = 4096;

/// The first line, and what follows it.
pub fn first_line(bytes: &[u8]) -> (&[u8], &[u8])
    requires { 0 < length bytes.now }
    ensures cut { lines_of bytes.now ≡ result.0.now ∷ lines_of result.1.now }
    ensures shorter { length result.1.now < length bytes.now }
{
    match cut_at(bytes, b'\n') {
        Some(cut) => cut,
        None => bytes.split_at(bytes.len()),
    }
}

/// Takes one line more. False where it isn't of the first form behind those that came.
pub fn take_line(
    alloc: Global,
    calls: &mut Vec<FirstCall>,
    services: &mut Services,
    line: &[u8],
) -> Result<bool, AllocError>
    ensures taken { IfOk result (λ good. OnTrue good ((before : List (List ℕ)) →
        AreRead before calls.old.items services.old →
        AreRead (before ++ line.now ∷ []) calls.new.items services.new)) }
    ensures other { IfOk result (λ good. OnFalse good ((before : List (List ℕ)) →
        AreRead before calls.old.items services.old → (says : Line) →
        ¬ IsOfFirstForm before (length calls.old.items) line.now says)) }
{
    match line_fields(line) {
        Some(Fields::Nothing) => Ok(true),
        Some(Fields::Service { path: _, method: _ }) => {
            let fresh = services.add(Vec::from_slice(alloc, line)?)?;
            Ok(fresh)
        }
        Some(
            Fields::Call {
                path,
                method,
                argument,
            },
        ) => {
            let known = services.has(service_text(alloc, path, method)?.as_slice());
            if !known || calls.len() >= CALL_LIMIT {
                return Ok(false);
            }
            calls.push(FirstCall::new(alloc, path, method, argument)?)?;
            Ok(true)
        }
        None => Ok(false),
    }
}

/// The line that names a service.
fn service_text(alloc: Global, path: &str, method: &str) -> Result<Vec<u8>, AllocError>
    ensures { IfOk result (λ text. text.items ≡ service_line path.now method.now) }
{
    let mut text = Vec::from_slice(alloc, b"service ")?;
    text.extend_from_slice(path.as_bytes())?;
    text.extend_from_slice(b" - ")?;
    text.extend_from_slice(method.as_bytes())?;
    text.extend_from_slice(b" Ljava/lang/Object; echo")?;
    Ok(text)
}
