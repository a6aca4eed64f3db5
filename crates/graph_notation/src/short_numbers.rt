//! Numbers of few digits, read while their end is looked for.

ghost use Rattle.std.specs.Prelude.{◌≡◌, ◌+◌, ◌-◌, ◌<◌, ◌≤◌, length, take, drop, FitsSigned, IfSome};
ghost use Rattle.std.specs.Fmt.{signed_decimal};
ghost use Rattle.std.specs.Int.{w32};
ghost use Rattle.graph_notation.specs.Lexing.{token_length};

use crate::token_ends::is_word_byte;

/// The number that a token writes, and the place behind the token.
#[derive(Clone, Copy)]
pub struct ShortNumber {
    /// The number.
    pub number: i32,
    /// The place behind its last digit.
    pub end: usize,
}

/// The number of at most nine digits at a place, without a zero before others. Nothing is known of other tokens.
pub fn short_number(text: &[u8], at: usize) -> Option<ShortNumber>
    requires { at < length text.now }
    ensures end { IfSome result (λ s. s.end ≡ at + token_length (drop at text.now)) }
    ensures within { IfSome result (λ s. s.end ≤ length text.now) }
    ensures fits { IfSome result (λ s. FitsSigned w32 s.number) }
    ensures number { IfSome result (λ s. take (s.end - at) (drop at text.now) ≡ signed_decimal s.number) }
{
    if text[at] <= b'0' || text[at] > b'9' {
        return None;
    }
    let mut value = u32::from(text[at] - b'0');
    let mut end = at + 1;
    while end < text.len() && text[end] >= b'0' && text[end] <= b'9' {
        if value >= 100_000_000 {
            return None;
        }
        value = value * 10 + u32::from(text[end] - b'0');
        end += 1;
    }
    if end < text.len() && is_word_byte(text[end]) {
        return None;
    }
    Some(ShortNumber {
        number: value as i32,
        end,
    })
}
