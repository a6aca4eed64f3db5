//! How far the reading of a request's body has come.

ghost use Rattle.std.specs.Prelude.{◌≡◌, ◌≢◌, ◌<◌, ◌≤◌, ◌+◌, ◌++◌, ℕ, List, [], IfOk, IfErr, length, take};

use super::fields::FieldPart;
use super::values::ValuePart;
use crate::fault::RequestFault;
use crate::message::Request;
use dubbo_header::Header;
use hessian_reader::HessianFault;
use std::alloc::Global;

/// Hessian 2's number among the serializations of a header.
const HESSIAN: u8 = 2;

/// How far the reading of a body has come.
#[derive(Drop)]
pub(crate) enum Progress {
    /// One of the texts is being read.
    Fields(FieldPart),
    /// All texts came, and the values are being read.
    Values(ValuePart),
    /// What came is refused, whatever follows; or memory ran out.
    Refused(RequestFault),
}

impl Progress {
    ghost use Rattle.hessian_graph.specs.InUse.{InOrderOfUse};
    ghost use Rattle.hessian_reader.specs.Leaves.{hessian, node_limit};
    ghost use Rattle.dubbo_header.specs.declared.header.Header.{Header as AHeader};
    ghost use Rattle.dubbo_bodies.specs.RequestBody.{RequestOf};
    ghost use Rattle.dubbo_bodies.specs.RequestReading.{IsRefusedRequest};
    ghost use Rattle.dubbo_bodies.specs.RequestStages.{IsSound, Stands};

    /// At the first byte of the body behind this header.
    pub(crate) fn begin(alloc: Global, header: &Header) -> Progress
        ensures sound { IsSound result 0 }
        ensures stands { Stands result header.now [] }
    {
        if header.serial == HESSIAN {
            Progress::Fields(FieldPart::begin(alloc))
        } else {
            Progress::Refused(RequestFault::BadSerial {
                number: header.serial,
            })
        }
    }

    /// Behind the next piece, where so many bytes were fed before.
    pub(crate) fn fed(self, alloc: Global, at: usize, piece: &[u8]) -> Progress
        requires sound { IsSound self at }
        requires room { at + length piece.now ≤ usize.MAX }
        ensures sound { IsSound result (at + length piece.now) }
        ensures stands { (header : AHeader) → (fed : List ℕ) → at ≡ length fed → Stands self header fed
            → Stands result header (fed ++ piece.now) }
    {
        let mut progress = self;
        let mut taken = 0;
        while taken < piece.len() {
            let (next, used) = progress.step(alloc, at + taken, &piece[taken..]);
            progress = next;
            taken += used;
        }
        progress
    }

    /// Behind the front of a piece that ends with a text, or behind all of it; and how many bytes that is.
    fn step(self, alloc: Global, at: usize, piece: &[u8]) -> (Progress, usize)
        requires sound { IsSound self at }
        requires some { 0 < length piece.now }
        requires room { at + length piece.now ≤ usize.MAX }
        ensures some { 0 < result.1 }
        ensures within { result.1 ≤ length piece.now }
        ensures sound { IsSound result.0 (at + result.1) }
        ensures stands { (header : AHeader) → (fed : List ℕ) → at ≡ length fed → Stands self header fed
            → Stands result.0 header (fed ++ take result.1 piece.now) }
    {
        match self {
            Progress::Fields(part) => part.step(alloc, at, piece),
            Progress::Values(part) => (part.step(at, piece), piece.len()),
            Progress::Refused(fault) => (Progress::Refused(fault), piece.len()),
        }
    }

    /// The request, where so many bytes were fed, or why there is none.
    pub(crate) fn finish(self, alloc: Global, at: usize) -> Result<Request, RequestFault>
        requires sound { IsSound self at }
        ensures ok { (header : AHeader) → (fed : List ℕ) → at ≡ length fed → Stands self header fed
            → IfOk result (λ r. RequestOf hessian node_limit header fed r) }
        ensures tables { IfOk result (λ r. InOrderOfUse r.args) }
        ensures why { (header : AHeader) → (fed : List ℕ) → at ≡ length fed → Stands self header fed
            → IfErr result (λ fault. fault ≢ RequestFault.OutOfMemory → IsRefusedRequest header fed fault) }
    {
        match self {
            Progress::Fields(_) => Err(RequestFault::Hessian(HessianFault::Short { at })),
            Progress::Values(part) => part.finish(alloc, at),
            Progress::Refused(fault) => Err(fault),
        }
    }
}
