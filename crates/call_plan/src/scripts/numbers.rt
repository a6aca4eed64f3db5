//! Numbers of a call's line.

ghost use Rattle.std.specs.Prelude.{◌≡◌, ◌≢◌, ◌<◌, ◌^◌, ℕ, MatchOption, decimal};
ghost use Rattle.call_plan.specs.declared.calls.Mode.{Mode as AMode};
ghost use Rattle.call_plan.specs.LineForms.{SayNumbers};
ghost use Rattle.call_plan.specs.Words.{SaysNumber, mode_word};

use super::words::mode_of;
use crate::calls::Mode;
use itoa::Buffer;
use std::str;

/// The most milliseconds until a deadline.
const TIMEOUT_LIMIT: u32 = 2_147_483_647;

/// The milliseconds until a deadline where none are said.
const DEFAULT_TIMEOUT: u32 = 1000;

/// The most times that Failover may try again.
const RETRIES_LIMIT: u32 = 15;

/// How often Failover tries again where it isn't said.
const DEFAULT_RETRIES: u32 = 2;

/// The most links that Forking may ask.
const FORKS_LIMIT: u32 = 8;

/// How many links Forking asks where it isn't said.
const DEFAULT_FORKS: u32 = 2;

/// A call's mode and its numbers.
#[derive(Clone, Copy)]
pub struct Settings {
    pub mode: Mode,
    pub timeout: u32,
    pub retries: u32,
    pub forks: u32,
}

/// What four fields say of a call.
pub fn read_settings(mode: &[u8], timeout: &[u8], retries: &[u8], forks: &[u8]) -> Option<Settings>
    ensures { MatchOption result
        ((m : AMode) (t r f : ℕ) → mode.now ≡ mode_word m → SayNumbers timeout.now retries.now forks.now t r f → ⊥)
        (λ s. (mode.now ≡ mode_word s.mode) × SayNumbers timeout.now retries.now forks.now s.timeout s.retries s.forks) }
{
    let mode = mode_of(mode)?;
    let timeout = number(timeout, 1, TIMEOUT_LIMIT, DEFAULT_TIMEOUT)?;
    let retries = number(retries, 0, RETRIES_LIMIT, DEFAULT_RETRIES)?;
    let forks = number(forks, 1, FORKS_LIMIT, DEFAULT_FORKS)?;
    Some(Settings {
        mode,
        timeout,
        retries,
        forks,
    })
}

/// The number that a field says, which is from the least to the most, or the default where the field is `-`.
fn number(field: &[u8], least: u32, most: u32, default: u32) -> Option<u32>
    ensures { MatchOption result ((n : ℕ) → ¬ SaysNumber least most default field.now n)
        (λ n. SaysNumber least most default field.now n) }
{
    if field == b"-".as_slice() {
        return Some(default);
    }
    let number = decimal(field)?;
    if number < least {
        return None;
    }
    if most < number {
        return None;
    }
    Some(number)
}

/// The number that the bytes are the decimal of, with no sign and no leading zero.
fn decimal(bytes: &[u8]) -> Option<u32>
    ensures { MatchOption result ((n : ℕ) → n < 2 ^ 32 → bytes.now ≢ decimal n)
        (λ n. (n < 2 ^ 32) × (bytes.now ≡ decimal n)) }
{
    let number = str::from_utf8(bytes).ok()?.parse::<u32>().ok()?;
    let mut buffer = Buffer::new();
    if buffer.format(number).as_bytes() == bytes {
        Some(number)
    } else {
        None
    }
}
