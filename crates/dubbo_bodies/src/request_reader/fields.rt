//! The texts in front of the values, read as their bytes come.

ghost use Rattle.std.specs.Prelude.{◌≡◌, ◌<◌, ◌≤◌, ◌+◌, ◌++◌, ◌∷◌, ℕ, List, [], length, take};
ghost use Rattle.hessian_text.specs.Refusal.{BeginsNothing};
ghost use Rattle.hessian_reader.specs.Leaves.{hessian};
ghost use Rattle.dubbo_header.specs.declared.header.Header.{Header};
ghost use Rattle.dubbo_bodies.specs.Fields.{FIELDS, BeginsWith};
ghost use Rattle.dubbo_bodies.specs.RequestStages.{IsFieldPart, InFields, IsSound, Stands};

use super::progress::Progress;
use super::values::ValuePart;
use crate::descriptor::count_args;
use crate::fault::RequestFault;
use hessian_graph::Chars;
use hessian_reader::{GraphReader, HessianFault};
use hessian_text::{ChunkReader, Fed, Kind};
use std::alloc::Global;

/// How many texts there are.
const FIELDS: usize = 5;

/// The place of the service's version among them, the one that may be null.
const VERSION: usize = 2;

/// The place of the descriptor, the last.
const DESCRIPTOR: usize = 4;

/// The code of null.
const NULL: u8 = b'N';

/// Whole texts, and one more that is being read.
#[derive(Drop)]
pub(crate) struct FieldPart {
    pub(crate) texts: Vec<Chars>,
    pub(crate) text: ChunkReader,
    /// Where the text that is being read began.
    pub(crate) from: usize,
}

/// Behind one more text, which ends at a place.
fn behind_text(alloc: Global, mut texts: Vec<Chars>, text: Chars, at: usize) -> Progress
    requires few { length texts.items < FIELDS }
    ensures sound { IsSound result at }
    ensures stands { (header : Header) → (fed : List ℕ) → BeginsWith hessian header fed (texts.items ++ text ∷ []) at []
        → Stands result header fed }
{
    match texts.push(text) {
        Ok(()) => {}
        Err(_) => return Progress::Refused(RequestFault::OutOfMemory),
    }
    if texts.len() < FIELDS {
        Progress::Fields(FieldPart::next(alloc, texts, at))
    } else {
        behind_texts(alloc, texts, at)
    }
}

/// Behind all texts, the last of which ends at a place.
fn behind_texts(alloc: Global, texts: Vec<Chars>, at: usize) -> Progress
    requires all { length texts.items ≡ FIELDS }
    ensures sound { IsSound result at }
    ensures stands { (header : Header) → (fed : List ℕ) → BeginsWith hessian header fed texts.items at []
        → Stands result header fed }
{
    match count_args(texts[DESCRIPTOR].as_str().as_bytes()) {
        Ok(count) => Progress::Values(ValuePart {
            texts,
            values: GraphReader::new(alloc, count + 1),
            from: at,
        }),
        Err(fault) => Progress::Refused(RequestFault::Descriptor(fault)),
    }
}

/// Behind the first byte of a text that no text begins with. It stands at a place.
fn behind_null(alloc: Global, texts: Vec<Chars>, at: usize, code: u8) -> Progress
    requires few { length texts.items < FIELDS }
    requires room { at < usize.MAX }
    ensures sound { IsSound result (at + 1) }
    ensures stands { (header : Header) → (fed : List ℕ) → BeginsNothing Kind.Text code
        → BeginsWith hessian header fed texts.items at (code ∷ []) → Stands result header fed }
{
    if texts.len() == VERSION && code == NULL {
        behind_text(alloc, texts, Chars::from(String::new(alloc)), at + 1)
    } else {
        Progress::Refused(RequestFault::NotText {
            field: texts.len() as u8,
        })
    }
}

impl FieldPart {
    /// At the first text.
    pub(crate) fn begin(alloc: Global) -> FieldPart
        ensures sound { IsFieldPart result 0 }
        ensures stands { (header : Header) → BeginsWith hessian header [] [] 0 [] → InFields result header [] }
    {
        FieldPart::next(alloc, Vec::new(alloc), 0)
    }

    /// At a place behind these texts.
    fn next(alloc: Global, texts: Vec<Chars>, at: usize) -> FieldPart
        requires few { length texts.items < FIELDS }
        ensures sound { IsFieldPart result at }
        ensures stands { (header : Header) → (fed : List ℕ) → BeginsWith hessian header fed texts.items at []
            → InFields result header fed }
    {
        FieldPart {
            texts,
            text: ChunkReader::new(alloc, Kind::Text),
            from: at,
        }
    }

    /// Behind the front of a piece that ends with the text, or behind all of it; and how many bytes that is.
    pub(crate) fn step(self, alloc: Global, at: usize, piece: &[u8]) -> (Progress, usize)
        requires sound { IsFieldPart self at }
        requires some { 0 < length piece.now }
        requires room { at + length piece.now ≤ usize.MAX }
        ensures some { 0 < result.1 }
        ensures within { result.1 ≤ length piece.now }
        ensures sound { IsSound result.0 (at + result.1) }
        ensures stands { (header : Header) → (fed : List ℕ) → at ≡ length fed → InFields self header fed
            → Stands result.0 header (fed ++ take result.1 piece.now) }
    {
        let FieldPart {
            texts,
            mut text,
            from,
        } = self;
        match text.feed(piece) {
            Err(_) => (Progress::Refused(RequestFault::OutOfMemory), piece.len()),
            Ok(Fed::More) => (
                Progress::Fields(FieldPart { texts, text, from }),
                piece.len(),
            ),
            Ok(Fed::Whole(used)) => {
                let whole = Chars::from(text.into_text());
                (behind_text(alloc, texts, whole, at + used), used)
            }
            Ok(Fed::NoCode(used)) => {
                if at + used == from {
                    (behind_null(alloc, texts, from, piece[used]), 1)
                } else {
                    (refused_code(at + used, piece[used]), piece.len())
                }
            }
            Ok(Fed::NoItem(used, begun)) => (
                refused_character((at + used).saturating_sub(begun)),
                piece.len(),
            ),
        }
    }
}

/// The refusal of a byte that begins no chunk of a text.
fn refused_code(at: usize, code: u8) -> Progress
    ensures { result ≡ Progress.Refused (RequestFault.Hessian (HessianFault.BadCode at code)) }
{
    Progress::Refused(RequestFault::Hessian(HessianFault::BadCode { at, code }))
}

/// The refusal of bytes that are no character.
fn refused_character(at: usize) -> Progress
    ensures { result ≡ Progress.Refused (RequestFault.Hessian (HessianFault.BadText at)) }
{
    Progress::Refused(RequestFault::Hessian(HessianFault::BadText { at }))
}
