//! The reading of one reply: what came of it, and where it stands.

ghost use Rattle.std.specs.Prelude.{◌≡◌, ◌≢◌, ◌+◌, ◌≤◌, ◌++◌, ℕ, List, [], length, IfOk, IfErr};
ghost use Rattle.dubbo_header.specs.declared.header.Header.{Header as AHeader};
ghost use Rattle.hessian_reader.specs.Leaves.{hessian, node_limit};
ghost use Rattle.dubbo_bodies.specs.ReplyBody.{ReplyOf};
ghost use Rattle.dubbo_bodies.specs.RefusedReply.{IsOfReply, IsRefusedReply};
ghost use Rattle.dubbo_bodies.specs.ReplyStages.{Reads};

use super::came::Came;
use super::stage::Stage;
use crate::message::Reply;
use crate::reply_fault::ReplyFault;
use dubbo_header::Header;
use std::alloc::Global;

/// The reading of one reply.
#[derive(Drop)]
pub(crate) struct Reading {
    pub came: Came,
    pub stage: Stage,
}

impl Reading {
    /// A reading to which nothing came.
    pub(crate) fn begin(alloc: Global, header: &Header) -> Reading
        ensures { Reads header.now [] result }
    {
        Reading {
            came: Came::nothing(header),
            stage: Stage::begin(alloc, header),
        }
    }

    /// The reading behind the next bytes.
    pub(crate) fn fed(self, alloc: Global, piece: &[u8]) -> Reading
        requires room { self.came.count + length piece.now ≤ usize.MAX }
        requires reads { Reads self.came.header self.came.fed.bytes self }
        ensures { Reads self.came.header (self.came.fed.bytes ++ piece.now) result }
    {
        let Reading { came, stage } = self;
        let stage = stage.fed(alloc, &came, piece);
        Reading {
            came: came.with(piece),
            stage,
        }
    }

    /// The reply that came, or why it is none.
    pub(crate) fn finish(self, alloc: Global) -> Result<Reply, ReplyFault>
        requires reads { Reads self.came.header self.came.fed.bytes self }
        requires reply { IsOfReply self.came.header }
        ensures ok { IfOk result (ReplyOf hessian node_limit self.came.header self.came.fed.bytes) }
        ensures why { IfErr result (λ fault. fault ≢ ReplyFault.OutOfMemory
            → IsRefusedReply self.came.header self.came.fed.bytes fault) }
    {
        let Reading { came, stage } = self;
        stage.finish(alloc, &came)
    }
}
