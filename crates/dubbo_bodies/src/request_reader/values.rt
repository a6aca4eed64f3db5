//! The arguments and the attachments, read as their bytes come.

ghost use Rattle.std.specs.Prelude.{◌≡◌, ◌≢◌, ◌≤◌, ◌+◌, ◌++◌, ℕ, List, IfOk, IfErr, length};

use super::outcome::request_of;
use super::progress::Progress;
use crate::fault::RequestFault;
use crate::fault_behind::fault_behind;
use crate::message::Request;
use hessian_graph::Chars;
use hessian_reader::{Fed, GraphReader, HessianFault};
use std::alloc::Global;

/// All texts, and the values behind them, as far as they came.
#[derive(Drop)]
pub(crate) struct ValuePart {
    pub(crate) texts: Vec<Chars>,
    pub(crate) values: GraphReader,
    /// Where the values began.
    pub(crate) from: usize,
}

impl ValuePart {
    ghost use Rattle.hessian_graph.specs.InUse.{InOrderOfUse};
    ghost use Rattle.hessian_reader.specs.Leaves.{hessian, node_limit};
    ghost use Rattle.dubbo_header.specs.declared.header.Header.{Header};
    ghost use Rattle.dubbo_bodies.specs.RequestBody.{RequestOf};
    ghost use Rattle.dubbo_bodies.specs.RequestReading.{IsRefusedRequest};
    ghost use Rattle.dubbo_bodies.specs.RequestStages.{IsValuePart, InValues, IsSound, Stands};

    /// Behind the next piece, where so many bytes were fed before.
    pub(crate) fn step(self, at: usize, piece: &[u8]) -> Progress
        requires sound { IsValuePart self at }
        requires room { at + length piece.now ≤ usize.MAX }
        ensures sound { IsSound result (at + length piece.now) }
        ensures stands { (header : Header) → (fed : List ℕ) → at ≡ length fed → InValues self header fed
            → Stands result header (fed ++ piece.now) }
    {
        let ValuePart {
            texts,
            mut values,
            from,
        } = self;
        match values.feed(piece) {
            Err(fault) => Progress::Refused(RequestFault::from(fault_behind(from, fault))),
            Ok(Fed::Done { used }) => {
                if used < piece.len() {
                    Progress::Refused(RequestFault::Hessian(HessianFault::Trailing {
                        at: at + used,
                    }))
                } else {
                    Progress::Values(ValuePart {
                        texts,
                        values,
                        from,
                    })
                }
            }
            Ok(Fed::More) => Progress::Values(ValuePart {
                texts,
                values,
                from,
            }),
        }
    }

    /// The request, or why there is none.
    pub(crate) fn finish(self, alloc: Global, at: usize) -> Result<Request, RequestFault>
        requires sound { IsValuePart self at }
        ensures ok { (header : Header) → (fed : List ℕ) → at ≡ length fed → InValues self header fed
            → IfOk result (λ r. RequestOf hessian node_limit header fed r) }
        ensures tables { IfOk result (λ r. InOrderOfUse r.args) }
        ensures why { (header : Header) → (fed : List ℕ) → at ≡ length fed → InValues self header fed
            → IfErr result (λ fault. fault ≢ RequestFault.OutOfMemory → IsRefusedRequest header fed fault) }
    {
        let ValuePart {
            texts,
            values,
            from,
        } = self;
        match values.finish() {
            Ok(graph) => request_of(alloc, texts, graph),
            Err(fault) => Err(RequestFault::from(fault_behind(from, fault))),
        }
    }
}
