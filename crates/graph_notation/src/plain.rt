//! Runs of bytes that stand for themselves in the content of a text.

ghost use Rattle.std.specs.Prelude.{◌≡◌, ℕ, ◌<◌, ◌≤◌, length, get_or, false};
ghost use Rattle.graph_notation.specs.Unquoting.{is_special, ArePlain};

/// How many bytes are looked at in one go.
const BLOCK: usize = 32;

/// How many bytes are looked at one by one first: most texts are short.
const NEAR: usize = 16;

/// Whether a byte doesn't stand for itself: `"`, `\`, U+0000 to U+001F and U+007F.
fn is_special(byte: u8) -> bool
    ensures { result ≡ is_special byte }
{
    byte < 0x20 || byte == 0x7f || byte == b'"' || byte == b'\\'
}

/// Whether any byte of a block doesn't stand for itself.
fn any_special(block: &[u8]) -> bool
    ensures { result ≡ false → (k : ℕ) → k < length block.now → is_special (get_or block.now k 0) ≡ false }
{
    let mut any = false;
    for byte in block {
        any |= is_special(*byte);
    }
    any
}

/// The place behind the bytes that stand for themselves from a place on, looked at one by one, at most up to a limit.
fn one_by_one(text: &[u8], at: usize, limit: usize) -> usize
    requires ordered { at ≤ limit }
    requires within { limit ≤ length text.now }
    ensures low { at ≤ result }
    ensures within { result ≤ limit }
    ensures plain { ArePlain text.now at result }
{
    let mut end = at;
    while end < limit && !is_special(text[end]) {
        end += 1;
    }
    end
}

/// A place with none but bytes that stand for themselves before it, from a place on.
fn by_blocks(text: &[u8], at: usize) -> usize
    requires { at ≤ length text.now }
    ensures low { at ≤ result }
    ensures within { result ≤ length text.now }
    ensures plain { ArePlain text.now at result }
{
    let mut end = at;
    while text.len() - end >= BLOCK && !any_special(&text[end..end + BLOCK]) {
        end += BLOCK;
    }
    end
}

/// The place behind the bytes that stand for themselves from a place on.
pub fn plain_end(text: &[u8], at: usize) -> usize
    requires { at ≤ length text.now }
    ensures low { at ≤ result }
    ensures within { result ≤ length text.now }
    ensures plain { ArePlain text.now at result }
{
    let near = at + NEAR.min(text.len() - at);
    let end = one_by_one(text, at, near);
    if end < near {
        return end;
    }
    let far = by_blocks(text, end);
    one_by_one(text, far, text.len())
}
