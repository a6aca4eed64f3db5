//! What a line of the command `ring` asks for.
ghost use Rattle.std.specs.Prelude.{◌≡◌, ◌≢◌, ◌↔◌, ◌++◌, ℕ, List, IsTrue, MatchOption};
ghost use Rattle.hash_ring.specs.Names.{IsName};
ghost use Rattle.dubbo_main.specs.RingLines.{Ask, Says};
ghost use Rattle.dubbo_main.specs.RingAsks.{asked};

use crate::lines::after;
use hash_ring::NAME_LIMIT;
use std::str;

/// What a line asks for. Its words are names, or keys that are spelled like names.
pub enum RingAsk<'a> {
    /// The line is empty.
    Nothing,
    /// A name is to be put in.
    Add(&'a str),
    /// A name is to be taken out.
    Remove(&'a str),
    /// A key is to be given a name.
    Choose(&'a str),
}

/// What the line asks for, or none where it is of no form that there is.
pub fn ring_ask(line: &[u8]) -> Option<RingAsk<'_>>
    ensures { MatchOption result ((ask : Ask) → ¬ Says line.now ask) (λ ask. Says line.now (asked ask)) }
{
    if line.is_empty() {
        return Some(RingAsk::Nothing);
    }
    if let Some(name) = word_after(line, b"add ") {
        return Some(RingAsk::Add(name));
    }
    if let Some(name) = word_after(line, b"remove ") {
        return Some(RingAsk::Remove(name));
    }
    let key = word_after(line, b"key ")?;
    Some(RingAsk::Choose(key))
}

/// The word behind this text, where the line is the text and a word.
fn word_after<'a>(line: &'a [u8], text: &[u8]) -> Option<&'a str>
    ensures { MatchOption result ((word : List ℕ) → IsName word → line.now ≢ text.now ++ word)
        (λ word. IsName word.now × (line.now ≡ text.now ++ word.now)) }
{
    let word = after(line, text)?;
    if !is_word(word) {
        return None;
    }
    match str::from_utf8(word) {
        Ok(word) => Some(word),
        Err(_) => None,
    }
}

/// Whether the bytes are spelled like a name.
fn is_word(bytes: &[u8]) -> bool
    ensures { IsTrue result ↔ IsName bytes.now }
{
    !bytes.is_empty()
        && bytes.len() <= NAME_LIMIT
        && bytes.iter().all(|byte| 0x21 <= *byte && *byte <= 0x7e)
}
