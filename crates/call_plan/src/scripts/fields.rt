//! The fields of a line, cut from its front.

ghost use Rattle.std.specs.Prelude.{◌≡◌, ◌≤◌, ◌∷◌, ℕ, suc, length, codes, MatchOption};
ghost use Rattle.call_plan.specs.Pieces.{CUTS, Lack, call_fields_of, fields_in, pieces};

use super::cuts::field;

/// The fields of a service's line behind its first word.
#[derive(Clone, Copy)]
pub struct ServiceFields<'a> {
    pub path: &'a [u8],
    pub version: &'a [u8],
    pub method: &'a [u8],
    pub desc: &'a [u8],
    /// All that follows, which is one field where the line is a service's.
    pub kind: &'a [u8],
}

/// The fields of a call's line behind its first word.
#[derive(Clone, Copy)]
pub struct CallFields<'a> {
    pub mode: &'a [u8],
    pub timeout: &'a [u8],
    pub retries: &'a [u8],
    pub forks: &'a [u8],
    pub path: &'a [u8],
    pub version: &'a [u8],
    pub method: &'a [u8],
    pub desc: &'a [u8],
    /// All that follows, which may have spaces.
    pub arguments: Option<&'a [u8]>,
}

/// Three fields, and what follows the space behind them.
#[derive(Clone, Copy)]
struct Three<'a> {
    first: &'a [u8],
    second: &'a [u8],
    third: &'a [u8],
    rest: &'a [u8],
}

/// The fields of a line whose first word is `service`, where there are as many as a service has, or more.
pub fn service_fields(line: &[u8]) -> Option<ServiceFields<'_>>
    ensures { MatchOption result (Lack (codes "service") 5 (pieces CUTS line.now))
        (λ f. pieces CUTS line.now ≡ codes "service" ∷ f.path.now ∷ f.version.now ∷ f.method.now ∷ f.desc.now ∷ pieces 4 f.kind.now) }
{
    let (word, rest) = field(line)?;
    if word != b"service".as_slice() {
        return None;
    }
    let target = cut_three(rest)?;
    let (desc, kind) = field(target.rest)?;
    Some(ServiceFields {
        path: target.first,
        version: target.second,
        method: target.third,
        desc,
        kind,
    })
}

/// The fields of a line whose first word is `call`, where there are as many as a call has.
pub fn call_fields(line: &[u8]) -> Option<CallFields<'_>>
    ensures { MatchOption result (Lack (codes "call") 8 (pieces CUTS line.now))
        (λ f. pieces CUTS line.now ≡ codes "call" ∷ call_fields_of f) }
{
    let (word, rest) = field(line)?;
    if word != b"call".as_slice() {
        return None;
    }
    let (mode, rest) = field(rest)?;
    let numbers = cut_three(rest)?;
    let target = cut_three(numbers.rest)?;
    let (desc, arguments) = last(target.rest);
    Some(CallFields {
        mode,
        timeout: numbers.first,
        retries: numbers.second,
        forks: numbers.third,
        path: target.first,
        version: target.second,
        method: target.third,
        desc,
        arguments,
    })
}

/// Three fields that each end at a space.
fn cut_three(bytes: &[u8]) -> Option<Three<'_>>
    ensures { MatchOption result ((n : ℕ) → length (pieces (suc (suc (suc n))) bytes.now) ≤ 3)
        (λ f. (n : ℕ) → pieces (suc (suc (suc n))) bytes.now ≡ f.first.now ∷ f.second.now ∷ f.third.now ∷ pieces n f.rest.now) }
{
    let (first, rest) = field(bytes)?;
    let (second, rest) = field(rest)?;
    let (third, rest) = field(rest)?;
    Some(Three {
        first,
        second,
        third,
        rest,
    })
}

/// One field, and what follows the space behind it, if there is one.
fn last(bytes: &[u8]) -> (&[u8], Option<&[u8]>)
    ensures { pieces 1 bytes.now ≡ result.0.now ∷ fields_in result.1 }
{
    match field(bytes) {
        Some((field, rest)) => (field, Some(rest)),
        None => (bytes, None),
    }
}
