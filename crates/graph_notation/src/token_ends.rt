//! Where tokens end.

ghost use Rattle.std.specs.Prelude.{◌≡◌, ℕ, ◌+◌, ◌<◌, ◌≤◌, length, drop, get_or, true, false, IsTrue};
ghost use Rattle.graph_notation.specs.Tokens.{is_word_byte};
ghost use Rattle.graph_notation.specs.Lexing.{word_run, closing, token_length};

use crate::plain::plain_end;

/// How many bytes of a long word are looked at in one go.
const BLOCK: usize = 32;

/// Whether a byte is one of a word.
pub fn is_word_byte(byte: u8) -> bool
    ensures { result ≡ is_word_byte byte }
{
    byte >= b'0' && byte <= b'9'
        || byte >= b'A' && byte <= b'Z'
        || byte >= b'a' && byte <= b'z'
        || byte == b'-'
        || byte == b'@'
        || byte == b'#'
}

/// Whether all bytes of a block are of words.
fn are_word_bytes(block: &[u8]) -> bool
    ensures { IsTrue result → (k : ℕ) → k < length block.now → is_word_byte (get_or block.now k 0) ≡ true }
{
    let mut all = true;
    for byte in block {
        all &= is_word_byte(*byte);
    }
    all
}

/// The place behind the bytes of a word from a place on, where the word may be long.
fn long_word_end(text: &[u8], at: usize) -> usize
    requires { at ≤ length text.now }
    ensures end { result ≡ at + word_run (drop at text.now) }
    ensures within { result ≤ length text.now }
{
    let mut end = at;
    while text.len() - end >= BLOCK && are_word_bytes(&text[end..end + BLOCK]) {
        end += BLOCK;
    }
    word_end(text, end)
}

/// The place behind the bytes of a word from a place on.
#[tactic(auto, using(crate::proofs::Cutting::run_on, crate::proofs::Cutting::run_off, crate::proofs::Cutting::run_end))]
fn word_end(text: &[u8], at: usize) -> usize
    requires { at ≤ length text.now }
    ensures end { result ≡ at + word_run (drop at text.now) }
    ensures within { result ≤ length text.now }
{
    let mut end = at;
    while end < text.len() {
        if !is_word_byte(text[end]) {
            return end;
        }
        end += 1;
    }
    end
}

/// The place behind a run of bytes that stand for themselves, unless `\` stands before it.
fn past_plain(text: &[u8], at: usize, escape: bool) -> usize
    requires { at ≤ length text.now }
    ensures same { at + closing escape (drop at text.now) ≡ result + closing escape (drop result text.now) }
    ensures onward { at ≤ result }
    ensures within { result ≤ length text.now }
{
    if escape { at } else { plain_end(text, at) }
}

/// The place behind the `"` that ends a text, or the end of all.
#[tactic(auto, using(crate::proofs::Cutting::quote_on, crate::proofs::Cutting::quote_off, crate::proofs::Cutting::quote_end))]
fn text_end(text: &[u8], at: usize) -> usize
    requires { at ≤ length text.now }
    ensures end { result ≡ at + closing false (drop at text.now) }
    ensures within { result ≤ length text.now }
{
    let mut end = past_plain(text, at, false);
    let mut escape = false;
    while end < text.len() {
        let byte = text[end];
        if !escape && byte == b'"' {
            return end + 1;
        }
        escape = !escape && byte == b'\\';
        end = past_plain(text, end + 1, escape);
    }
    end
}

/// The place behind the token that begins at a place.
#[tactic(auto, using(crate::proofs::Cutting::first_byte))]
pub fn token_end(text: &[u8], at: usize) -> usize
    requires { at < length text.now }
    ensures end { result ≡ at + token_length (drop at text.now) }
    ensures within { result ≤ length text.now }
{
    let byte = text[at];
    if byte == b'x' {
        long_word_end(text, at + 1)
    } else if is_word_byte(byte) {
        word_end(text, at + 1)
    } else if byte == b'"' {
        text_end(text, at + 1)
    } else {
        at + 1
    }
}
