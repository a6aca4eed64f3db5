//! The values of a reply, behind the number of its kind.

ghost use Rattle.std.specs.Prelude.{◌≡◌, ◌≢◌, ◌+◌, ◌≤◌, ◌++◌, ℕ, List, length, IfOk, IfErr};
ghost use Rattle.hessian_graph.specs.Reading.{IntSpelling};
ghost use Rattle.hessian_reader.specs.Leaves.{hessian, node_limit};
ghost use Rattle.dubbo_header.specs.declared.header.Header.{Header as AHeader};
ghost use Rattle.dubbo_bodies.specs.ReplyBody.{ReplyOf};
ghost use Rattle.dubbo_bodies.specs.RefusedReply.{IsRefusedReply};
ghost use Rattle.dubbo_bodies.specs.ReplyKinds.{number_of};
ghost use Rattle.dubbo_bodies.specs.ReplyStages.{AtValues, BeginsValues, Stands};

use super::came::Came;
use super::kind::Kind;
use super::outcome::outcome;
use super::stage::{Stage, refused};
use crate::fault_behind::fault_behind;
use crate::message::Reply;
use crate::reply_fault::ReplyFault;
use hessian_reader::{Fed, GraphReader, HessianFault};
use std::alloc::Global;

/// The reading of the values behind a kind.
#[derive(Drop)]
pub(crate) struct Values {
    pub kind: Kind,
    /// How many bytes the number of the kind has.
    pub from: usize,
    pub reader: GraphReader,
}

impl Values {
    /// The reading of the values behind a kind, whose number has so many bytes.
    pub(crate) fn begin(alloc: Global, kind: Kind, from: usize) -> Values
        ensures { BeginsValues kind from result }
    {
        Values {
            kind,
            from,
            reader: GraphReader::new(alloc, kind.roots()),
        }
    }

    /// The stage behind the next bytes.
    pub(crate) fn fed(mut self, came: &Came, piece: &[u8]) -> Stage
        requires at { AtValues came.now.header came.now.fed.bytes self }
        requires room { came.now.count + length piece.now ≤ usize.MAX }
        ensures { Stands came.now.header (came.now.fed.bytes ++ piece.now) result }
    {
        match self.reader.feed(piece) {
            Ok(Fed::Done { used }) => {
                if used < piece.len() {
                    return refused(HessianFault::Trailing {
                        at: came.count + used,
                    });
                }
                Stage::Values(self)
            }
            Ok(Fed::More) => Stage::Values(self),
            Err(fault) => Stage::Refused(ReplyFault::from(fault_behind(self.from, fault))),
        }
    }

    /// The reply of all values, or why they are none.
    pub(crate) fn finish(self, alloc: Global, came: &Came) -> Result<Reply, ReplyFault>
        requires at { AtValues came.now.header came.now.fed.bytes self }
        ensures ok { IfOk result (ReplyOf hessian node_limit came.now.header came.now.fed.bytes) }
        ensures why { IfErr result (λ fault. fault ≢ ReplyFault.OutOfMemory
            → IsRefusedReply came.now.header came.now.fed.bytes fault) }
    {
        let Values { kind, from, reader } = self;
        match reader.finish() {
            Ok(graph) => {
                // Parts of a graph are sound, so each value names a node of it.
                let _parts = graph.parts();
                outcome(alloc, kind, graph)
            }
            Err(fault) => Err(ReplyFault::from(fault_behind(from, fault))),
        }
    }
}
