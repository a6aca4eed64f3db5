//! One element, from bytes that come in pieces.

ghost use Rattle.std.specs.Prelude.{◌≡◌, ◌<◌, ◌≤◌, ◌++◌, ℕ, List, [], length, slice_index, take, true, IfOk, IfSome};
ghost use Rattle.hessian_scalars.specs.ScalarSpelling.{ScalarSpelling};
ghost use Rattle.hessian_text.specs.Spelling.{AreBytes};
ghost use Rattle.hessian_reader.specs.Codes.{head_of, kind_of, value_of, scalar_element, chunk_element};
ghost use Rattle.hessian_reader.specs.Elements.{IsElement};
ghost use Rattle.hessian_reader.specs.Lexing.{Holds, IsWithin, Lexes};
ghost use Rattle.hessian_reader.specs.Refusing.{RefusesByte};
ghost use Rattle.hessian_reader.specs.Starting.{LeadsChunks, LeadsScalar};

use crate::chunks::Chunks;
use crate::element::{Element, Form, Head, Want};
use hessian_graph::{Chars, Octets, Value};
use hessian_scalars::{Front, Scalar, ScalarReader, begins_int, scalar_at_once};
use hessian_text::{Fed, Kind};
use std::alloc::{AllocError, Global};
use std::mem;

/// What came of an element.
#[derive(Drop)]
pub enum Inside {
    /// Nothing.
    Nothing,
    /// The beginning of a scalar.
    Scalar(ScalarReader),
    /// The beginning of a text or a binary.
    Chunks(Chunks),
}

/// An element in a place that takes these elements, as far as it came.
#[derive(Drop)]
pub struct Lexer {
    /// What the place takes.
    pub want: Want,
    /// What came.
    pub inside: Inside,
}

/// What a piece made of an element. Counts are of bytes of this piece.
#[derive(Drop)]
pub enum Lexed {
    /// The element goes on behind the piece.
    More,
    /// The element, which ends behind so many bytes.
    Whole(Element, usize),
    /// The element's first byte is a double's code.
    Double(u8),
    /// Behind so many bytes stands a code that begins nothing there.
    NoCode(usize, u8),
    /// Behind so many bytes stands one that no character goes on with; so many bytes of it came.
    NoText(usize, usize),
}

/// The head that a code is.
pub fn head_of(code: u8) -> Option<Head>
    ensures { result ≡ head_of code }
{
    match code {
        0x51 => Some(Head::Refer),
        0x78..=0x7f => Some(Head::ShortList((code - 0x78) as usize)),
        0x57 => Some(Head::OpenList),
        0x58 => Some(Head::LongList),
        0x55 => Some(Head::Typed(Form::Open)),
        0x56 => Some(Head::Typed(Form::Long)),
        0x70..=0x77 => Some(Head::Typed(Form::Short((code - 0x70) as usize))),
        0x4d => Some(Head::Typed(Form::Pairs)),
        0x48 => Some(Head::OpenMap),
        0x43 => Some(Head::Define),
        0x60..=0x6f => Some(Head::ShortObject(code - 0x60)),
        0x4f => Some(Head::LongObject),
        0x5a => Some(Head::End),
        _ => None,
    }
}

/// Whether a text or a binary begins with a code.
fn kind_of(code: u8) -> Option<Kind>
    ensures { result ≡ kind_of code }
{
    match code {
        0x00..=0x1f | 0x30..=0x33 | 0x52 | 0x53 => Some(Kind::Text),
        0x20..=0x2f | 0x34..=0x37 | 0x41 | 0x42 => Some(Kind::Binary),
        _ => None,
    }
}

/// The value that a scalar is.
pub fn value_of(scalar: Scalar) -> Value
    ensures { result ≡ value_of scalar }
{
    match scalar {
        Scalar::Null => Value::Null,
        Scalar::Bool(truth) => Value::Bool(truth),
        Scalar::Int(number) => Value::Int(number),
        Scalar::Long(number) => Value::Long(number),
        Scalar::Date(moment) => Value::Date(moment),
    }
}

/// The element that a whole scalar is.
fn scalar_element(want: Want, scalar: Scalar) -> Element
    ensures { result ≡ scalar_element want scalar }
{
    match (want, scalar) {
        (Want::AnyValue, _) => Element::Plain(value_of(scalar)),
        (_, Scalar::Int(number)) => Element::Number(number),
        _ => Element::Plain(value_of(scalar)),
    }
}

/// The element that a whole text or binary is.
fn chunk_element(want: Want, chunks: Chunks) -> Element
    ensures { result ≡ chunk_element want chunks.kind chunks.reader.done }
{
    let Chunks { kind, reader } = chunks;
    match kind {
        Kind::Binary => Element::Plain(Value::Bytes(Octets::from(reader.into_bytes()))),
        Kind::Text => {
            let text = Chars::from(reader.into_text());
            match want {
                Want::AnyValue => Element::Plain(Value::Text(text)),
                _ => Element::Words(text),
            }
        }
    }
}

/// A code or a scalar that lies whole at the front of a piece, in a value's place, and behind how many bytes it ends.
fn value_at_once(piece: &[u8]) -> Option<(Element, usize)>
    ensures within { IfSome result (λ p. p.1 ≤ length piece.now) }
    ensures is { IfSome result (λ p. IsElement Want.AnyValue (take p.1 piece.now) p.0) }
{
    let [code, ..] = *piece else {
        return None;
    };
    if let Some(head) = head_of(code) {
        return Some((Element::Code(head), 1));
    }
    match scalar_at_once(piece) {
        Some((scalar, used)) => Some((Element::Plain(value_of(scalar)), used)),
        None => None,
    }
}

impl Lexer {
    /// An element of which nothing came.
    pub fn new(want: Want) -> Lexer
        ensures want { result.want ≡ want }
        ensures nothing { result.inside ≡ Inside.Nothing }
    {
        Lexer {
            want,
            inside: Inside::Nothing,
        }
    }

    /// Whether a value or a code is to come, and nothing of it came.
    fn is_fresh(&self) -> bool
        ensures nothing { result ≡ true → self.now.inside ≡ Inside.Nothing }
        ensures any { result ≡ true → self.now.want ≡ Want.AnyValue }
    {
        match (&self.inside, self.want) {
            (Inside::Nothing, Want::AnyValue) => true,
            _ => false,
        }
    }

    /// The element that lies whole at the front of a piece, where that is told at once, and behind how many bytes it ends.
    pub fn at_once(&self, piece: &[u8]) -> Option<(Element, usize)>
        ensures nothing { IfSome result (λ _. self.now.inside ≡ Inside.Nothing) }
        ensures any { IfSome result (λ _. self.now.want ≡ Want.AnyValue) }
        ensures within { IfSome result (λ p. p.1 ≤ length piece.now) }
        ensures is { IfSome result (λ p. IsElement self.now.want (take p.1 piece.now) p.0) }
    {
        if self.is_fresh() {
            value_at_once(piece)
        } else {
            None
        }
    }

    /// Takes the bytes of a piece, up to the element's end.
    ///
    /// After each answer but `More` the element is over.
    pub fn feed(&mut self, alloc: Global, piece: &[u8]) -> Result<Lexed, AllocError>
        ensures within { IfOk result (IsWithin (length piece.now)) }
        ensures lexes { (came : List ℕ) → AreBytes came → Holds self.old.want self.old.inside came
            → IfOk result (Lexes self.old.want came piece.now self.new) }
        ensures refuses { (came : List ℕ) → AreBytes came → Holds self.old.want self.old.inside came
            → IfOk result (RefusesByte self.old.want came piece.now) }
    {
        match mem::replace(&mut self.inside, Inside::Nothing) {
            Inside::Nothing => self.begin(alloc, piece),
            Inside::Scalar(reader) => Ok(self.go_on(reader, piece)),
            Inside::Chunks(chunks) => self.go_through(chunks, piece),
        }
    }

    /// Begins an element.
    fn begin(&mut self, alloc: Global, piece: &[u8]) -> Result<Lexed, AllocError>
        requires nothing { self.old.inside ≡ Inside.Nothing }
        ensures within { IfOk result (IsWithin (length piece.now)) }
        ensures lexes { IfOk result (Lexes self.old.want [] piece.now self.new) }
        ensures refuses { IfOk result (RefusesByte self.old.want [] piece.now) }
    {
        let [code, ..] = *piece else {
            return Ok(Lexed::More);
        };
        match self.want {
            Want::AnyValue => self.begin_value(alloc, code, piece),
            Want::AnInt => Ok(self.begin_int(code, piece)),
            Want::AText => self.go_through(Chunks::new(alloc, Kind::Text), piece),
            Want::AType => {
                if begins_int(code) {
                    Ok(self.go_on(ScalarReader::new(), piece))
                } else {
                    self.go_through(Chunks::new(alloc, Kind::Text), piece)
                }
            }
        }
    }

    /// Begins an element in a value's place.
    fn begin_value(&mut self, alloc: Global, code: u8, piece: &[u8]) -> Result<Lexed, AllocError>
        requires any { self.old.want ≡ Want.AnyValue }
        requires some { 0 < length piece.now }
        requires first { code ≡ slice_index piece.now 0 }
        ensures within { IfOk result (IsWithin (length piece.now)) }
        ensures lexes { IfOk result (Lexes self.old.want [] piece.now self.new) }
        ensures refuses { IfOk result (RefusesByte self.old.want [] piece.now) }
    {
        if let Some(head) = head_of(code) {
            return Ok(Lexed::Whole(Element::Code(head), 1));
        }
        match kind_of(code) {
            Some(kind) => self.go_through(Chunks::new(alloc, kind), piece),
            None => Ok(self.go_on(ScalarReader::new(), piece)),
        }
    }

    /// Begins an int.
    fn begin_int(&mut self, code: u8, piece: &[u8]) -> Lexed
        requires int { self.old.want ≡ Want.AnInt }
        requires some { 0 < length piece.now }
        requires first { code ≡ slice_index piece.now 0 }
        ensures within { IsWithin (length piece.now) result }
        ensures lexes { Lexes self.old.want [] piece.now self.new result }
        ensures refuses { RefusesByte self.old.want [] piece.now result }
    {
        if begins_int(code) {
            self.go_on(ScalarReader::new(), piece)
        } else {
            Lexed::NoCode(0, code)
        }
    }

    /// Goes on with a scalar.
    fn go_on(&mut self, reader: ScalarReader, piece: &[u8]) -> Lexed
        ensures within { IsWithin (length piece.now) result }
        ensures lexes { LeadsScalar self.old.want (reader ++ piece.now) → Lexes self.old.want reader piece.now self.new result }
        ensures refuses { LeadsScalar self.old.want (reader ++ piece.now) → RefusesByte self.old.want reader piece.now result }
    {
        let mut reader = reader;
        match reader.feed(piece) {
            Front::Whole(scalar, used) => Lexed::Whole(scalar_element(self.want, scalar), used),
            Front::Part => {
                self.inside = Inside::Scalar(reader);
                Lexed::More
            }
            Front::Double(code) => Lexed::Double(code),
            Front::Other(code) => Lexed::NoCode(0, code),
        }
    }

    /// Goes on with a text or a binary.
    fn go_through(&mut self, chunks: Chunks, piece: &[u8]) -> Result<Lexed, AllocError>
        ensures within { IfOk result (IsWithin (length piece.now)) }
        ensures lexes { (came : List ℕ) → AreBytes came → LeadsChunks self.old.want chunks.reader came piece.now
            → IfOk result (Lexes self.old.want came piece.now self.new) }
        ensures refuses { (came : List ℕ) → AreBytes came → LeadsChunks self.old.want chunks.reader came piece.now
            → IfOk result (RefusesByte self.old.want came piece.now) }
    {
        let Chunks { kind, reader } = chunks;
        let mut reader = reader;
        match reader.feed(piece)? {
            Fed::More => {
                self.inside = Inside::Chunks(Chunks { kind, reader });
                Ok(Lexed::More)
            }
            Fed::Whole(used) => {
                let element = chunk_element(self.want, Chunks { kind, reader });
                Ok(Lexed::Whole(element, used))
            }
            Fed::NoCode(place) => Ok(Lexed::NoCode(place, piece[place])),
            Fed::NoItem(place, begun) => Ok(Lexed::NoText(place, begun)),
        }
    }
}
