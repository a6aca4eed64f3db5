//! Texts in UTF-8: their fronts of whole characters, and their units of UTF-16.

ghost use Rattle.std.specs.Prelude.{◌≡◌, ℕ, ◌<◌, ◌≤◌, length, slice_index, take, IsUtf8};
ghost use Rattle.std.specs.List.{sum_by};
ghost use Rattle.hessian_text.specs.Units.{IsFirstChunk, IsFront, byte_units, utf16};

use simdutf8::compat::from_utf8;

/// How many bytes and units a front has.
#[derive(Clone, Copy, Debug, PartialEq, Eq)]
pub(crate) struct Measure {
    pub len: usize,
    pub units: usize,
}

/// The most units of one chunk that the writer makes.
pub(crate) const CHUNK: usize = 32_768;

/// How many bytes are looked at in one go: their units fit a byte.
const BLOCK: usize = 64;

/// The first window that is tested for UTF-8, in bytes; each later one is twice as long, so that a
/// fault costs no more than what was taken before it.
const WINDOW: usize = 32;

/// How many units a character counts at this byte of it.
fn byte_units(byte: u8) -> u8
    ensures { result ≡ byte_units byte }
{
    let begins = byte < 0x80 || byte >= 0xc0;
    u8::from(begins) + u8::from(byte >= 0xf0)
}

/// How many units the bytes of a block count.
fn block_units(block: &[u8]) -> u8
    requires { length block.now ≤ 64 }
    ensures { result ≡ sum_by byte_units block.now }
{
    let mut units = 0;
    for byte in block {
        units += byte_units(*byte);
    }
    units
}

/// How many units of UTF-16 a text in UTF-8 has.
pub(crate) fn unit_count(text: &[u8]) -> usize
    requires { IsUtf8 text.now }
    ensures { result ≡ length (utf16 text.now) }
{
    let mut units = 0;
    let mut at = 0;
    while text.len() - at >= BLOCK {
        units += usize::from(block_units(&text[at..at + BLOCK]));
        at += BLOCK;
    }
    units + usize::from(block_units(&text[at..]))
}

/// The place before this one, where no character begins at this one.
fn back_in_character(piece: &[u8], at: usize) -> usize
    requires { at ≤ length piece.now }
    ensures { result ≤ at }
{
    if at > 0 && at < piece.len() && (0x80..=0xbf).contains(&piece[at]) {
        at - 1
    } else {
        at
    }
}

/// How many bytes from the first on are whole characters in UTF-8, of at most so many bytes.
pub(crate) fn utf8_front(piece: &[u8], most: usize) -> usize
    requires { most ≤ length piece.now }
    ensures within { result ≤ most }
    ensures text { IsUtf8 (take result piece.now) }
{
    let mut at = 0;
    let mut window = WINDOW;
    while at < most {
        let end = at + window.min(most - at);
        let end = back_in_character(
            piece,
            back_in_character(piece, back_in_character(piece, end)),
        );
        if end <= at {
            return at;
        }
        match from_utf8(&piece[at..end]) {
            Ok(_) => at = end,
            Err(fault) => return at + fault.valid_up_to(),
        }
        window = window.saturating_mul(2);
    }
    at
}

/// The largest byte of a block.
fn largest(block: &[u8]) -> u8
    ensures { (k : ℕ) → k < length block.now → slice_index block.now k ≤ result }
{
    let mut most = 0;
    for byte in block {
        most = most.max(*byte);
    }
    most
}

/// How many bytes from the first on belong to no character of four bytes.
pub(crate) fn low_run(text: &[u8]) -> usize
    ensures within { result ≤ length text.now }
    ensures low { (k : ℕ) → k < result → slice_index text.now k < 0xf0 }
    ensures ends { result < length text.now → 0xf0 ≤ slice_index text.now result }
{
    let mut at = 0;
    while text.len() - at >= BLOCK && largest(&text[at..at + BLOCK]) < 0xf0 {
        at += BLOCK;
    }
    while at < text.len() && text[at] < 0xf0 {
        at += 1;
    }
    at
}

/// The first character of a text, where it has room in so many units.
fn first_front(text: &str, room: usize) -> Measure
    ensures { IsFront text.now room result.len result.units }
{
    let nothing = Measure { len: 0, units: 0 };
    let Some(first) = text.chars().next() else {
        return nothing;
    };
    if first.len_utf16() > room {
        return nothing;
    }
    Measure {
        len: first.len_utf8(),
        units: first.len_utf16(),
    }
}

/// Whole characters at the front of a text that fit so many units. A character has no more units
/// than bytes, so that many bytes fit at once.
fn next_front(text: &str, room: usize) -> Measure
    ensures { IsFront text.now room result.len result.units }
{
    let len = text.floor_char_boundary(text.len().min(room));
    if len == 0 {
        return first_front(text, room);
    }
    Measure {
        len,
        units: unit_count(text[..len].as_bytes()),
    }
}

/// The characters of the first chunk that the writer makes of a text.
pub(crate) fn first_chunk(text: &str) -> Measure
    ensures { IsFirstChunk text.now result.len result.units }
{
    let mut len = 0;
    let mut units = 0;
    loop {
        let front = next_front(&text[len..], CHUNK - units);
        if front.len == 0 {
            return Measure { len, units };
        }
        len += front.len;
        units += front.units;
    }
}
