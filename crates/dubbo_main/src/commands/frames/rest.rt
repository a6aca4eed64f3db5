//! The rest of a stream that begins no whole frame.
ghost use Rattle.std.specs.Prelude.{◌≡◌, ◌≢◌, ◌++◌, ◌↔◌, ℕ, IsTrue, MatchOption, OnOk};
ghost use Rattle.dubbo_header.specs.Header.{IsTooLong};
ghost use Rattle.dubbo_main.specs.FaultTexts.{damage_line};
ghost use Rattle.dubbo_main.specs.Framing.{HasOtherMagic, IsDamagedBy, StatesTooMuch, rest_text};

use super::heads::write_number;
use dubbo_header::{HeaderFault, read_header};
use std::alloc::AllocError;

/// Why the rest of a stream begins no whole frame.
#[derive(Clone, Copy, Debug, PartialEq, Eq)]
pub enum RestFault {
    /// Its first two bytes aren't those of a header, or the one byte that it has isn't the first of one.
    OtherMagic,
    /// Its header states so many bytes of a body, more than there may be.
    TooLong { length: u32 },
    /// It ends inside a frame.
    Short,
}

/// The first two bytes of a header.
const MAGIC: [u8; 2] = [0xda, 0xbb];

/// Why these bytes, where they begin no whole frame, don't.
pub fn fault_of(rest: &[u8]) -> RestFault
    ensures { IsDamagedBy rest.now result }
{
    if has_other_magic(rest) {
        return RestFault::OtherMagic;
    }
    match stated_too_much(rest) {
        Some(length) => RestFault::TooLong { length },
        None => RestFault::Short,
    }
}

/// Whether the first two bytes, or the one that there is, don't go on as the magic.
fn has_other_magic(rest: &[u8]) -> bool
    ensures { IsTrue result ↔ HasOtherMagic rest.now }
{
    match rest {
        [] => false,
        [first] => is_other(*first),
        [first, second, ..] => are_other(*first, *second),
    }
}

/// Whether a byte isn't the first of a header.
fn is_other(first: u8) -> bool
    ensures { IsTrue result ↔ (first ≢ 0xda) }
{
    first != MAGIC[0]
}

/// Whether two bytes aren't the first of a header.
fn are_other(first: u8, second: u8) -> bool
    ensures { IsTrue result ↔ ¬ ((first ≡ 0xda) × (second ≡ 0xbb)) }
{
    first != MAGIC[0] || second != MAGIC[1]
}

/// The length of a body that the header of these bytes states, where that is more than there may be.
fn stated_too_much(rest: &[u8]) -> Option<u32>
    ensures { MatchOption result ((count : ℕ) → ¬ StatesTooMuch rest.now count) (StatesTooMuch rest.now) }
{
    let (head, _) = rest.split_first_chunk::<16>()?;
    too_long(head)
}

/// The length of a body that these bytes of a header state, where that is more than there may be.
fn too_long(head: &[u8; 16]) -> Option<u32>
    ensures { MatchOption result ((count : ℕ) → ¬ IsTooLong head.now count) (IsTooLong head.now) }
{
    match read_header(head) {
        Err(HeaderFault::TooLong { length }) => Some(length),
        Err(HeaderFault::BadMagic { .. }) => None,
        Ok(_) => None,
    }
}

/// Appends the line of a rest whose first byte stands at this place.
pub fn write_rest(text: &mut Vec<u8>, at: usize, fault: RestFault) -> Result<(), AllocError>
    ensures { OnOk result (text.new.items ≡ text.old.items ++ damage_line (rest_text at fault)) }
{
    text.extend_from_slice(b"damaged ")?;
    write_number(text, at as u64)?;
    match fault {
        RestFault::OtherMagic => text.extend_from_slice(b" magic\n"),
        RestFault::TooLong { length } => {
            text.extend_from_slice(b" length ")?;
            write_number(text, u64::from(length))?;
            text.extend_from_slice(b"\n")
        }
        RestFault::Short => text.extend_from_slice(b" short\n"),
    }
}
