//! The text of a status.

ghost use Rattle.std.specs.Prelude.{◌≡◌, ◌≢◌, ◌+◌, ◌<◌, ◌≤◌, ◌++◌, length, slice_index, IfOk, IfErr, MatchBool, string_bytes};
ghost use Rattle.hessian_reader.specs.Leaves.{hessian, node_limit};
ghost use Rattle.dubbo_bodies.specs.ReplyBody.{ReplyOf};
ghost use Rattle.dubbo_bodies.specs.Fields.{NULL};
ghost use Rattle.dubbo_bodies.specs.RefusedReply.{IsRefusedReply};
ghost use Rattle.dubbo_bodies.specs.ReplyStages.{AtText, IsStatus, Stands};

use super::came::Came;
use super::stage::{Stage, refused};
use crate::message::Reply;
use crate::reply_fault::ReplyFault;
use hessian_graph::Chars;
use hessian_reader::HessianFault;
use hessian_text::{ChunkReader, Fed};

/// The code of null, which stands for the empty text.
const NULL_CODE: u8 = b'N';

/// The stage behind the next bytes of a text, which has begun, is to begin, or is whole.
pub(super) fn feed_text(mut reader: ChunkReader, came: &Came, piece: &[u8]) -> Stage
    requires at { AtText came.now.header came.now.fed.bytes reader }
    requires some { 0 < length piece.now }
    requires room { came.now.count + length piece.now ≤ usize.MAX }
    ensures { Stands came.now.header (came.now.fed.bytes ++ piece.now) result }
{
    if begins_null(came, piece[0]) {
        return behind_null(came, piece);
    }
    match reader.feed(piece) {
        Ok(Fed::More) => Stage::Text(reader),
        Ok(Fed::Whole(used)) => {
            if used < piece.len() {
                return refused(HessianFault::Trailing {
                    at: came.count + used,
                });
            }
            Stage::Text(reader)
        }
        Ok(Fed::NoCode(used)) => refused(HessianFault::BadCode {
            at: came.count + used,
            code: piece[used],
        }),
        Ok(Fed::NoItem(used, begun_len)) => refused(HessianFault::BadText {
            at: (came.count + used).saturating_sub(begun_len),
        }),
        Err(_) => Stage::Refused(ReplyFault::OutOfMemory),
    }
}

/// Whether the byte is the first of its body, and the code of null.
fn begins_null(came: &Came, byte: u8) -> bool
    ensures { MatchBool result ((came.now.count ≡ 0) × (byte ≡ NULL)) (came.now.count ≡ 0 → byte ≢ NULL) }
{
    came.count == 0 && byte == NULL_CODE
}

/// The stage behind a piece that begins a body with null.
fn behind_null(came: &Came, piece: &[u8]) -> Stage
    requires status { IsStatus came.now.header }
    requires first { came.now.count ≡ 0 }
    requires some { 0 < length piece.now }
    requires null { slice_index piece.now 0 ≡ NULL }
    ensures { Stands came.now.header (came.now.fed.bytes ++ piece.now) result }
{
    if piece.len() > 1 {
        refused(HessianFault::Trailing { at: 1 })
    } else {
        Stage::NoText
    }
}

/// The reply of a text, or that it is cut short.
pub(super) fn text_reply(reader: ChunkReader, came: &Came) -> Result<Reply, ReplyFault>
    requires { AtText came.now.header came.now.fed.bytes reader }
    ensures ok { IfOk result (ReplyOf hessian node_limit came.now.header came.now.fed.bytes) }
    ensures why { IfErr result (λ fault. fault ≢ ReplyFault.OutOfMemory
        → IsRefusedReply came.now.header came.now.fed.bytes fault) }
{
    if reader.is_ended() {
        Ok(status_reply(came, reader.into_text()))
    } else {
        Err(ReplyFault::Hessian(HessianFault::Short { at: came.count }))
    }
}

/// The reply with the status of the header, and a text.
pub(super) fn status_reply(came: &Came, text: String) -> Reply
    ensures { result ≡ Reply.Status came.now.header.status (string_bytes text) }
{
    Reply::Status {
        code: came.header.status,
        text: Chars::from(text),
    }
}
