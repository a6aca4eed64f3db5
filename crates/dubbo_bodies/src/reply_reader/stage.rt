//! Where the reading of a reply stands between two pieces.
//!
//! ```text
//! Kind --a whole int--> Values            status 20
//! Text --the code of null--> NoText       any other status
//! Kind, Values, Text, NoText --a byte or a value that is refused--> Refused
//! ```

ghost use Rattle.std.specs.Prelude.{◌≡◌, ◌≢◌, ◌+◌, ◌≤◌, ◌++◌, [], length, IfOk, IfErr};
ghost use Rattle.hessian_reader.specs.Leaves.{hessian, node_limit};
ghost use Rattle.dubbo_bodies.specs.ReplyBody.{ReplyOf};
ghost use Rattle.dubbo_bodies.specs.RefusedReply.{IsOfReply, IsRefusedReply};
ghost use Rattle.dubbo_bodies.specs.ReplyStages.{Stands};

use super::came::Came;
use super::kind::feed_kind;
use super::text::{feed_text, status_reply, text_reply};
use super::values::Values;
use crate::message::Reply;
use crate::reply_fault::ReplyFault;
use dubbo_header::Header;
use hessian_reader::HessianFault;
use hessian_scalars::ScalarReader;
use hessian_text::{ChunkReader, Kind};
use std::alloc::Global;

/// The number of Hessian 2 among the serializations.
const HESSIAN: u8 = 2;

/// The status of a call that ended with a value or an exception.
const OK: u8 = 20;

/// Where the reading of a reply stands.
#[derive(Drop)]
pub(crate) enum Stage {
    /// Nothing is read: the frame is a request or an event.
    Nothing,
    /// At the number of the kind, or inside it.
    Kind(ScalarReader),
    /// At the values behind a kind, or inside them.
    Values(Values),
    /// At the text of a status, or inside it.
    Text(ChunkReader),
    /// Behind the null that stands for the empty text.
    NoText,
    /// Behind what is refused.
    Refused(ReplyFault),
}

impl Stage {
    /// The stage at which the body of a frame with this header begins.
    pub(crate) fn begin(alloc: Global, header: &Header) -> Stage
        ensures { Stands header.now [] result }
    {
        if header.request || header.event {
            return Stage::Nothing;
        }
        if header.serial != HESSIAN {
            return Stage::Refused(ReplyFault::BadSerial {
                number: header.serial,
            });
        }
        if header.status == OK {
            Stage::Kind(ScalarReader::new())
        } else {
            Stage::Text(ChunkReader::new(alloc, Kind::Text))
        }
    }

    /// The stage behind the next bytes.
    pub(crate) fn fed(self, alloc: Global, came: &Came, piece: &[u8]) -> Stage
        requires room { came.now.count + length piece.now ≤ usize.MAX }
        requires stands { Stands came.now.header came.now.fed.bytes self }
        ensures { Stands came.now.header (came.now.fed.bytes ++ piece.now) result }
    {
        if piece.is_empty() {
            return self;
        }
        match self {
            Stage::Kind(reader) => feed_kind(alloc, reader, came, piece),
            Stage::Values(values) => values.fed(came, piece),
            Stage::Text(reader) => feed_text(reader, came, piece),
            Stage::NoText => refused(HessianFault::Trailing { at: 1 }),
            Stage::Nothing => Stage::Nothing,
            Stage::Refused(fault) => Stage::Refused(fault),
        }
    }

    /// The reply of all that came, or why it is none.
    pub(crate) fn finish(self, alloc: Global, came: &Came) -> Result<Reply, ReplyFault>
        requires stands { Stands came.now.header came.now.fed.bytes self }
        requires reply { IsOfReply came.now.header }
        ensures ok { IfOk result (ReplyOf hessian node_limit came.now.header came.now.fed.bytes) }
        ensures why { IfErr result (λ fault. fault ≢ ReplyFault.OutOfMemory
            → IsRefusedReply came.now.header came.now.fed.bytes fault) }
    {
        match self {
            Stage::Nothing => unreachable!(),
            Stage::Kind(_) => Err(ReplyFault::Hessian(HessianFault::Short { at: came.count })),
            Stage::Values(values) => values.finish(alloc, came),
            Stage::Text(reader) => text_reply(reader, came),
            Stage::NoText => Ok(status_reply(came, String::new(alloc))),
            Stage::Refused(fault) => Err(fault),
        }
    }
}

/// The stage behind bytes that are refused.
pub(super) fn refused(fault: HessianFault) -> Stage
    ensures { result ≡ Stage.Refused (ReplyFault.Hessian fault) }
{
    Stage::Refused(ReplyFault::Hessian(fault))
}
