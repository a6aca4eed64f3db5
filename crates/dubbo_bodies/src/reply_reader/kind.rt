//! The kind of a reply: the int that its body begins with.

ghost use Rattle.std.specs.Prelude.{◌≡◌, ◌+◌, ◌<◌, ◌≤◌, ◌++◌, [], length, take, MatchBool, MatchOption};
ghost use Rattle.hessian_graph.specs.Reading.{IntSpelling};
ghost use Rattle.hessian_scalars.specs.Read.{BeginsInt};
ghost use Rattle.hessian_reader.specs.Leaves.{hessian};
ghost use Rattle.dubbo_bodies.specs.ReplyBody.{HasRoots};
ghost use Rattle.dubbo_bodies.specs.ReplyKinds.{IsNoKind, number_of};
ghost use Rattle.dubbo_bodies.specs.ReplyStages.{AtKind, IsOutcome, Stands};

use super::came::Came;
use super::stage::{Stage, refused};
use super::values::Values;
use crate::reply_fault::ReplyFault;
use hessian_reader::HessianFault;
use hessian_scalars::{Front, Scalar, ScalarReader, begins_int};
use std::alloc::Global;

/// What stands behind the number of a kind.
#[derive(Clone, Copy, Debug, PartialEq, Eq)]
pub(crate) enum Kind {
    /// An exception.
    Threw,
    /// A value.
    Value,
    /// Nothing: the value null.
    Null,
    /// An exception and attachments.
    ThrewBeside,
    /// A value and attachments.
    ValueBeside,
    /// Attachments: the value null.
    NullBeside,
}

/// The kind of a number.
pub(crate) fn kind_of(number: i32) -> Option<Kind>
    ensures { MatchOption result (IsNoKind number) (λ kind. number_of kind ≡ number) }
{
    match number {
        0 => Some(Kind::Threw),
        1 => Some(Kind::Value),
        2 => Some(Kind::Null),
        3 => Some(Kind::ThrewBeside),
        4 => Some(Kind::ValueBeside),
        5 => Some(Kind::NullBeside),
        _ => None,
    }
}

impl Kind {
    /// How many values stand behind the number.
    pub(crate) fn roots(self) -> u32
        ensures { HasRoots (number_of self) result }
    {
        match self {
            Kind::Threw => 1,
            Kind::Value => 1,
            Kind::Null => 0,
            Kind::ThrewBeside => 2,
            Kind::ValueBeside => 2,
            Kind::NullBeside => 1,
        }
    }
}

/// The stage behind the next bytes of a kind, which has begun or is to begin.
pub(super) fn feed_kind(alloc: Global, mut reader: ScalarReader, came: &Came, piece: &[u8]) -> Stage
    requires at { AtKind came.now.header came.now.fed.bytes reader }
    requires some { 0 < length piece.now }
    requires room { came.now.count + length piece.now ≤ usize.MAX }
    ensures { Stands came.now.header (came.now.fed.bytes ++ piece.now) result }
{
    if refuses_first(&reader, piece[0]) {
        return refused(HessianFault::BadCode {
            at: 0,
            code: piece[0],
        });
    }
    match reader.feed(piece) {
        Front::Whole(scalar, used) => {
            let Scalar::Int(number) = scalar else {
                unreachable!()
            };
            behind_kind(alloc, number, used, came, piece)
        }
        Front::Part => Stage::Kind(reader),
        Front::Double(_) => unreachable!(),
        Front::Other(_) => unreachable!(),
    }
}

/// Whether no number begins with the byte, and none has begun.
fn refuses_first(reader: &ScalarReader, byte: u8) -> bool
    ensures { MatchBool result ((reader.now ≡ []) × (BeginsInt byte → ⊥)) (reader.now ≡ [] → BeginsInt byte) }
{
    !reader.is_inside() && !begins_int(byte)
}

/// The stage behind a piece, of which so many bytes end the number of the kind.
fn behind_kind(alloc: Global, number: i32, used: usize, came: &Came, piece: &[u8]) -> Stage
    requires outcome { IsOutcome came.now.header }
    requires within { used ≤ length piece.now }
    requires whole { IntSpelling hessian number (came.now.fed.bytes ++ take used piece.now) }
    requires room { came.now.count + length piece.now ≤ usize.MAX }
    ensures { Stands came.now.header (came.now.fed.bytes ++ piece.now) result }
{
    let Some(kind) = kind_of(number) else {
        return Stage::Refused(ReplyFault::BadKind { number });
    };
    let front = came.with(&piece[..used]);
    Values::begin(alloc, kind, front.count).fed(&front, &piece[used..])
}
