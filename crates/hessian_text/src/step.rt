//! One byte on: what it does to the character that has begun, and to the stage.

ghost use Rattle.std.specs.Prelude.{◌≡◌, ◌≢◌, ℕ, ◌+◌, ◌*◌, ◌<◌, ◌≤◌, length, MatchOption, OnOk, OnErr, ◌++◌, None, Some};
ghost use Rattle.hessian_text.specs.Residual.{begun_bytes};
ghost use Rattle.hessian_text.specs.Reader.{TellsStep};
ghost use Rattle.hessian_text.specs.Sound.{IsLeadFive, SoundBegun, SoundStage};
ghost use Rattle.hessian_text.specs.Steps.{after_code, behind, entered, first_byte, fourth_byte, item_step, letter_bytes, letter_units, pair_code, quad_of, second_byte, third_byte};

use crate::stage::{Begun, Kind, Letter, Part, Stage};

/// What a byte makes of a character.
#[derive(Clone, Copy, Debug, PartialEq, Eq)]
pub enum Item {
    /// The character goes on.
    Grows(Begun),
    /// The character is whole.
    Whole(Letter),
    /// No character goes on with the byte.
    Wrong,
}

/// What a byte makes of a stage.
#[derive(Clone, Copy, Debug, PartialEq, Eq)]
pub enum Step {
    /// It leads to this stage.
    To(Stage),
    /// It leads to this stage, and a character is whole.
    Gains(Stage, Letter),
    /// No chunk has this code.
    NoCode,
    /// No character goes on with it; so many bytes of one came before.
    NoItem(usize),
}

/// What a piece made of a reading.
#[derive(Clone, Copy, Debug, PartialEq, Eq)]
pub enum Fed {
    /// The whole piece was taken, and more is to come.
    More,
    /// The value ended behind so many bytes of the piece.
    Whole(usize),
    /// So many bytes were taken, and the next is no code of a chunk.
    NoCode(usize),
    /// So many bytes were taken, and no character goes on with the next; so many bytes of it, in
    /// this piece and before, came.
    NoItem(usize, usize),
}

/// Where a reading stands behind a chunk.
fn behind(part: Part) -> Stage
    ensures { result ≡ behind part }
{
    match part {
        Part::Inner => Stage::Code,
        Part::Final => Stage::Ended,
    }
}

/// Where a reading stands when so many units of a chunk are to come.
pub(crate) fn entered(part: Part, units: u16) -> Stage
    ensures { result ≡ entered part units }
{
    if units == 0 {
        behind(part)
    } else {
        Stage::Inside(part, units, Begun::Nothing)
    }
}

/// Where the code of a text's chunk leads.
fn after_text_code(code: u8) -> Option<Stage>
    ensures { result ≡ after_code Kind.Text code }
{
    match code {
        0x00..=0x1f => Some(entered(Part::Final, u16::from(code))),
        0x30..=0x33 => Some(Stage::Low(Part::Final, code - 0x30)),
        b'R' => Some(Stage::High(Part::Inner)),
        b'S' => Some(Stage::High(Part::Final)),
        _ => None,
    }
}

/// Where the code of a binary's chunk leads.
fn after_binary_code(code: u8) -> Option<Stage>
    ensures { result ≡ after_code Kind.Binary code }
{
    match code {
        0x20..=0x2f => Some(entered(Part::Final, u16::from(code - 0x20))),
        0x34..=0x37 => Some(Stage::Low(Part::Final, code - 0x34)),
        b'A' => Some(Stage::High(Part::Inner)),
        b'B' => Some(Stage::High(Part::Final)),
        _ => None,
    }
}

/// Where the code of a chunk leads.
fn after_code(kind: Kind, code: u8) -> Option<Stage>
    ensures { result ≡ after_code kind code }
{
    match kind {
        Kind::Text => after_text_code(code),
        Kind::Binary => after_binary_code(code),
    }
}

/// A character's first byte, where so many units are left.
fn first_byte(left: u16, a: u8) -> Item
    ensures { result ≡ first_byte left a }
{
    match a {
        0x00..=0x7f => Item::Whole(Letter::Single(a)),
        0xc2..=0xef => Item::Grows(Begun::One(a)),
        0xf0..=0xf4 if left >= 2 => Item::Grows(Begun::One(a)),
        _ => Item::Wrong,
    }
}

/// A character's second byte. A surrogate needs two units, with its partner.
fn second_byte(left: u16, a: u8, b: u8) -> Item
    ensures { result ≡ second_byte left a b }
{
    let grown = Item::Grows(Begun::Two(a, b));
    match (a, b) {
        (0x00..=0xdf, 0x80..=0xbf) => Item::Whole(Letter::Pair(a, b)),
        (0xe0, 0xa0..=0xbf) => grown,
        (0xed, 0x80..=0x9f) => grown,
        (0xed, 0xa0..=0xaf) if left >= 2 => grown,
        (0xe1..=0xec, 0x80..=0xbf) => grown,
        (0xee..=0xef, 0x80..=0xbf) => grown,
        (0xf0, 0x90..=0xbf) => grown,
        (0xf4, 0x80..=0x8f) => grown,
        (0xf1..=0xf3, 0x80..=0xbf) => grown,
        (0xf5..=0xff, 0x80..=0xbf) => grown,
        _ => Item::Wrong,
    }
}

/// A character's third byte.
fn third_byte(a: u8, b: u8, c: u8) -> Item
    ensures { result ≡ third_byte a b c }
{
    if !(0x80..=0xbf).contains(&c) {
        return Item::Wrong;
    }
    if a >= 0xf0 || (a == 0xed && b >= 0xa0) {
        Item::Grows(Begun::Three(a, b, c))
    } else {
        Item::Whole(Letter::Triple(a, b, c))
    }
}

/// A character's fourth byte.
fn fourth_byte(a: u8, b: u8, c: u8, d: u8) -> Item
    ensures { result ≡ fourth_byte a b c d }
{
    match (a, d) {
        (0xf0..=0xff, 0x80..=0xbf) => Item::Whole(Letter::Quad(a, b, c, d)),
        (0x00..=0xef, 0xed) => Item::Grows(Begun::Four(a, b, c, d)),
        _ => Item::Wrong,
    }
}

/// The four bytes of a character above U+FFFF.
pub(crate) fn quad_of(code: u32) -> Letter
    requires { code < 0x200000 }
    ensures { result ≡ quad_of code }
{
    Letter::Quad(
        (0xf0 + code / 262_144) as u8,
        (0x80 + code / 4096 % 64) as u8,
        (0x80 + code / 64 % 64) as u8,
        (0x80 + code % 64) as u8,
    )
}

/// The character whose surrogates end by these bytes.
pub(crate) fn pair_code(b: u8, c: u8, e: u8, f: u8) -> u32
    requires high { (0xa0 ≤ b) × (b ≤ 0xaf) × (0x80 ≤ c) × (c ≤ 0xbf) }
    requires low { (0xb0 ≤ e) × (e ≤ 0xbf) × (0x80 ≤ f) × (f ≤ 0xbf) }
    ensures code { result ≡ pair_code b c e f }
    ensures fits { result < 0x200000 }
{
    let high = (u32::from(b) - 0xa0) * 64 + (u32::from(c) - 0x80);
    let low = (u32::from(e) - 0xb0) * 64 + (u32::from(f) - 0x80);
    0x10000 + high * 1024 + low
}

/// The last byte of a low surrogate.
fn sixth_byte(left: u16, a: u8, b: u8, c: u8, d: u8, e: u8, f: u8) -> Item
    requires { IsLeadFive left a b c d e }
    ensures { result ≡ item_step Kind.Text left (Begun.Five a b c d e) f }
{
    if (0x80..=0xbf).contains(&f) {
        Item::Whole(quad_of(pair_code(b, c, e, f)))
    } else {
        Item::Wrong
    }
}

/// What a byte makes of the character that has begun, where so many units are left.
fn text_step(left: u16, begun: Begun, byte: u8) -> Item
    requires { SoundBegun Kind.Text left begun }
    ensures { result ≡ item_step Kind.Text left begun byte }
{
    match begun {
        Begun::Nothing => first_byte(left, byte),
        Begun::One(a) => second_byte(left, a, byte),
        Begun::Two(a, b) => third_byte(a, b, byte),
        Begun::Three(a, b, c) => fourth_byte(a, b, c, byte),
        Begun::Four(a, b, c, d) => {
            if (0xb0..=0xbf).contains(&byte) {
                Item::Grows(Begun::Five(a, b, c, d, byte))
            } else {
                Item::Wrong
            }
        }
        Begun::Five(a, b, c, d, e) => sixth_byte(left, a, b, c, d, e, byte),
    }
}

/// What a byte makes of an item.
fn item_step(kind: Kind, left: u16, begun: Begun, byte: u8) -> Item
    requires { SoundBegun kind left begun }
    ensures { result ≡ item_step kind left begun byte }
{
    match kind {
        Kind::Text => text_step(left, begun, byte),
        Kind::Binary => Item::Whole(Letter::Single(byte)),
    }
}

/// How many units a letter has.
fn letter_units(letter: Letter) -> u16
    ensures { result ≡ letter_units letter }
{
    match letter {
        Letter::Quad(..) => 2,
        _ => 1,
    }
}

/// How many bytes of a character came.
fn begun_len(begun: Begun) -> usize
    ensures { result ≡ length (begun_bytes begun) }
{
    match begun {
        Begun::Nothing => 0,
        Begun::One(..) => 1,
        Begun::Two(..) => 2,
        Begun::Three(..) => 3,
        Begun::Four(..) => 4,
        Begun::Five(..) => 5,
    }
}

/// One byte inside a chunk.
fn inside_step(kind: Kind, part: Part, left: u16, begun: Begun, byte: u8) -> Step
    requires sound { SoundStage kind (Stage.Inside part left begun) }
    ensures { TellsStep result kind (Stage.Inside part left begun) byte }
{
    match item_step(kind, left, begun, byte) {
        Item::Grows(grown) => Step::To(Stage::Inside(part, left, grown)),
        Item::Whole(letter) => Step::Gains(entered(part, left - letter_units(letter)), letter),
        Item::Wrong => Step::NoItem(begun_len(begun)),
    }
}

/// The low byte of a length.
fn low_step(part: Part, high: u8, low: u8) -> Stage
    ensures { result ≡ entered part (high * 256 + low) }
{
    entered(part, u16::from(high) * 256 + u16::from(low))
}

/// One byte on, where the value has not ended.
pub(crate) fn take_step(kind: Kind, stage: Stage, byte: u8) -> Step
    requires sound { SoundStage kind stage }
    requires open { stage ≢ Stage.Ended }
    ensures { TellsStep result kind stage byte }
{
    match stage {
        Stage::Code => match after_code(kind, byte) {
            Some(next) => Step::To(next),
            None => Step::NoCode,
        },
        Stage::High(part) => Step::To(Stage::Low(part, byte)),
        Stage::Low(part, high) => Step::To(low_step(part, high, byte)),
        Stage::Inside(part, left, begun) => inside_step(kind, part, left, begun, byte),
        Stage::Ended => unreachable!(),
    }
}
