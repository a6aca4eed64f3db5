//! A reading of a text or a binary, piece by piece.

ghost use Rattle.std.specs.Prelude.{◌≡◌, ◌≢◌, ℕ, ◌+◌, ◌<◌, ◌≤◌, ◌++◌, ◌∷◌, [], List, length, take, false, true, IfOk, IfSome, OnOk, OnErr, string_bytes, IsTrue, ◌↔◌};
ghost use Rattle.hessian_text.specs.Items.{Contents};
ghost use Rattle.hessian_text.specs.Reader.{Advances, Feeds, Takes, TakesFront};
ghost use Rattle.hessian_text.specs.Steps.{letter_bytes};

use crate::stage::{Begun, Kind, Letter, Part, Stage};
use crate::step::{Fed, Step, entered, pair_code, quad_of, take_step};
use crate::units::{Measure, unit_count, utf8_front};
use std::alloc::{AllocError, Global};
use std::marker::Model;

/// A reading of one text or one binary that takes its bytes in pieces and may stop anywhere.
#[derive(Drop)]
pub struct ChunkReader {
    kind: Kind,
    done: Vec<u8>,
    stage: Stage,
}

impl Model for ChunkReader {
    ghost use Rattle.hessian_text.specs.Reader.{Reading, SoundReading};

    ghost Value = { Reading };

    ghost view = { λ r. record { kind = r.kind; done = r.done.items; stage = r.stage } };

    ghost invariant = { λ r. SoundReading (record { kind = r.kind; done = r.done.items; stage = r.stage }) };
}

/// What one byte did.
#[derive(Clone, Copy, Debug, PartialEq, Eq)]
pub(crate) enum Took {
    /// It was taken.
    Taken,
    /// No chunk has this code.
    NoCode,
    /// No character goes on with it; so many bytes of one came before.
    NoItem(usize),
}

/// What the front of a piece did.
#[derive(Clone, Copy, Debug, PartialEq, Eq)]
pub(crate) enum Front {
    /// So many bytes were taken.
    Taken(usize),
    /// The first byte is no code of a chunk.
    NoCode,
    /// No character goes on with the first byte; so many bytes of one came before.
    NoItem(usize),
}

/// The chunk that a reading stands in between two items, and its units that are left.
fn before_item(stage: Stage) -> Option<(Part, u16)>
    ensures { IfSome result (λ p. stage ≡ Stage.Inside p.0 p.1 Begun.Nothing) }
{
    let Stage::Inside(part, left, begun) = stage else {
        return None;
    };
    if begun == Begun::Nothing {
        Some((part, left))
    } else {
        None
    }
}

/// Appends a whole character, or a byte of a binary.
fn append_letter(done: &mut Vec<u8>, letter: Letter) -> Result<(), AllocError>
    ensures ok { OnOk result (done.new.items ≡ done.old.items ++ letter_bytes letter) }
    ensures err { OnErr result (done.new.items ≡ done.old.items) }
{
    match letter {
        Letter::Single(a) => done.extend_from_slice(&[a]),
        Letter::Pair(a, b) => done.extend_from_slice(&[a, b]),
        Letter::Triple(a, b, c) => done.extend_from_slice(&[a, b, c]),
        Letter::Quad(a, b, c, d) => done.extend_from_slice(&[a, b, c, d]),
    }
}

/// Whole items at the front of a piece that are their own values and fit so many units; not always
/// all of them. An item has no more units than bytes, so that many bytes fit at once.
fn item_run(kind: Kind, left: u16, piece: &[u8]) -> Measure
    ensures within { result.len ≤ length piece.now }
    ensures fits { result.units ≤ left }
    ensures run { Contents kind (take result.len piece.now) result.units (take result.len piece.now) }
{
    let most = piece.len().min(usize::from(left));
    match kind {
        Kind::Text => text_run(piece, most),
        Kind::Binary => Measure {
            len: most,
            units: most,
        },
    }
}

/// Whole characters in UTF-8 at the front of a piece, of at most so many bytes.
fn text_run(piece: &[u8], most: usize) -> Measure
    requires { most ≤ length piece.now }
    ensures within { result.len ≤ most }
    ensures fits { result.units ≤ most }
    ensures run { Contents Kind.Text (take result.len piece.now) result.units (take result.len piece.now) }
{
    let len = utf8_front(piece, most);
    Measure {
        len,
        units: unit_count(&piece[..len]),
    }
}

/// The character above U+FFFF whose two surrogates stand at the front of a piece.
fn pair_at(piece: &[u8]) -> Option<Letter>
    ensures within { IfSome result (λ _. 6 ≤ length piece.now) }
    ensures pair { IfSome result (λ p. Contents Kind.Text (letter_bytes p) 2 (take 6 piece.now)) }
{
    match piece {
        [
            0xed,
            b @ 0xa0..=0xaf,
            c @ 0x80..=0xbf,
            0xed,
            e @ 0xb0..=0xbf,
            f @ 0x80..=0xbf,
            ..
        ] => { Some(quad_of(pair_code(*b, *c, *e, *f))) }
        _ => None,
    }
}

impl ChunkReader {
    /// Begins a reading at the code of its first chunk.
    pub fn new(alloc: Global, kind: Kind) -> ChunkReader
        ensures { result ≡ record { kind = kind; done = []; stage = Stage.Code } }
    {
        ChunkReader {
            kind,
            done: Vec::new(alloc),
            stage: Stage::Code,
        }
    }

    /// Whether the value is whole.
    pub fn is_ended(&self) -> bool
        ensures { IsTrue result ↔ (self.now.stage ≡ Stage.Ended) }
    {
        matches!(self.stage, Stage::Ended)
    }

    /// Takes bytes of the chunk that lie in one run, and answers how many; none where it can't.
    fn take_run(&mut self, piece: &[u8]) -> Result<usize, AllocError>
        ensures within { IfOk result (λ n. n ≤ length piece.now) }
        ensures ok { IfOk result (λ n. Advances self.old (take n piece.now) self.new) }
    {
        let Some((part, left)) = before_item(self.stage) else {
            return Ok(0);
        };
        let run = item_run(self.kind, left, piece);
        self.done.extend_from_slice(&piece[..run.len])?;
        self.stage = entered(part, left - run.units as u16);
        Ok(run.len)
    }

    /// Takes a character of a text in two surrogates, where one lies whole at the front of a piece,
    /// and answers how many bytes.
    fn take_pair(&mut self, piece: &[u8]) -> Result<usize, AllocError>
        ensures within { IfOk result (λ n. n ≤ length piece.now) }
        ensures ok { IfOk result (λ n. Advances self.old (take n piece.now) self.new) }
    {
        let Kind::Text = self.kind else {
            return Ok(0);
        };
        let Some((part, left)) = before_item(self.stage) else {
            return Ok(0);
        };
        if left < 2 {
            return Ok(0);
        }
        let Some(letter) = pair_at(piece) else {
            return Ok(0);
        };
        append_letter(&mut self.done, letter)?;
        self.stage = entered(part, left - 2);
        Ok(6)
    }

    /// Takes one byte.
    fn take_byte(&mut self, byte: u8) -> Result<Took, AllocError>
        requires { self.old.stage ≢ Stage.Ended }
        ensures { IfOk result (Takes self.old byte self.new) }
    {
        match take_step(self.kind, self.stage, byte) {
            Step::To(next) => self.stage = next,
            Step::Gains(next, letter) => {
                append_letter(&mut self.done, letter)?;
                self.stage = next;
            }
            Step::NoCode => return Ok(Took::NoCode),
            Step::NoItem(begun_len) => return Ok(Took::NoItem(begun_len)),
        }
        Ok(Took::Taken)
    }

    /// Takes one byte or more from the front of a piece.
    fn take_front(&mut self, piece: &[u8]) -> Result<Front, AllocError>
        requires open { self.old.stage ≢ Stage.Ended }
        requires some { 0 < length piece.now }
        ensures { IfOk result (TakesFront self.old piece.now self.new) }
    {
        let pair = self.take_pair(piece)?;
        if pair > 0 {
            return Ok(Front::Taken(pair));
        }
        let run = self.take_run(piece)?;
        if run > 0 {
            return Ok(Front::Taken(run));
        }
        Ok(match self.take_byte(piece[0])? {
            Took::Taken => Front::Taken(1),
            Took::NoCode => Front::NoCode,
            Took::NoItem(begun_len) => Front::NoItem(begun_len),
        })
    }

    /// Takes the bytes of a piece, up to the value's end.
    ///
    /// After a refusal of memory the reading has taken some of the piece, and serves no more.
    pub fn feed(&mut self, piece: &[u8]) -> Result<Fed, AllocError>
        ensures { IfOk result (Feeds self.old piece.now self.new) }
    {
        let mut taken = 0;
        while taken < piece.len() {
            if self.is_ended() {
                return Ok(Fed::Whole(taken));
            }
            match self.take_front(&piece[taken..])? {
                Front::Taken(count) => taken += count,
                Front::NoCode => return Ok(Fed::NoCode(taken)),
                Front::NoItem(begun_len) => return Ok(Fed::NoItem(taken, begun_len)),
            }
        }
        if self.is_ended() {
            Ok(Fed::Whole(taken))
        } else {
            Ok(Fed::More)
        }
    }

    /// The bytes of the value so far: of a text, in UTF-8.
    pub fn into_bytes(self) -> Vec<u8>
        ensures { result.items ≡ self.done }
    {
        self.done
    }

    /// The text so far.
    pub fn into_text(self) -> String
        requires { self.kind ≡ Kind.Text }
        ensures { string_bytes result ≡ self.done }
    {
        // SAFETY: what a text gains is whole characters in UTF-8.
        unsafe { String::from_utf8_unchecked(self.done) }
    }
}
