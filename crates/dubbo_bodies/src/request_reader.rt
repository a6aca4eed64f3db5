//! A reader of requests, whose bodies come in pieces.

ghost use Rattle.std.specs.Prelude.{◌≡◌, ◌≢◌, ◌≤◌, ◌+◌, ◌++◌, ℕ, List, [], None, Some, IsSome, IfOk, IfErr, MatchResult, length};

mod fields;
mod outcome;
mod progress;
mod values;

use crate::fault::RequestFault;
use crate::fed_bytes::FedBytes;
use crate::message::Request;
use dubbo_header::Header;
use link_frames::BodySink;
pub(crate) use progress::Progress;
use std::alloc::Global;
use std::marker::Model;
use std::mem;

/// Reads the body of a request from bytes that come in any pieces.
///
/// Contracts see the header that it was started with, and the bytes that were fed since. It holds at most the values of
/// one body, and of a text or a number that isn't whole what came. The first refusal is kept, want of memory included.
#[derive(Drop)]
pub struct RequestReader {
    alloc: Global,
    header: Option<Header>,
    progress: Progress,
    count: usize,
    fed: FedBytes,
}

impl Model for RequestReader {
    ghost use Rattle.dubbo_bodies.specs.FedBody.{FedBody};
    ghost use Rattle.dubbo_bodies.specs.RequestInside.{Follows};

    ghost Value = { FedBody };

    ghost view = { λ r. record { started = r.header; fed = r.fed.bytes } };

    ghost invariant = { λ r. Follows r.progress r.count r.header r.fed.bytes };
}

impl RequestReader {
    ghost use Rattle.hessian_graph.specs.InUse.{InOrderOfUse};
    ghost use Rattle.hessian_reader.specs.Leaves.{hessian, node_limit};
    ghost use Rattle.dubbo_header.specs.declared.header.Header.{Header as AHeader};
    ghost use Rattle.dubbo_bodies.specs.declared.message.Request.{Request as ARequest};
    ghost use Rattle.dubbo_bodies.specs.RequestBody.{RequestOf};
    ghost use Rattle.dubbo_bodies.specs.RequestReading.{SaysTheSame, IsRefusedRequest};

    /// A reader that wasn't started.
    pub fn new(alloc: Global) -> RequestReader
        ensures { result ≡ record { started = None; fed = [] } }
    {
        RequestReader {
            alloc,
            header: None,
            progress: Progress::Refused(RequestFault::OutOfMemory),
            count: 0,
            fed: FedBytes::empty(),
        }
    }

    /// Ends the body: the request, or what was refused.
    pub fn finish(self) -> Result<Request, RequestFault>
        requires started { IsSome self.started }

        // The request is the one that the header and the bytes that were fed are.
        ensures ok { (header : AHeader) → self.started ≡ Some header
            → IfOk result (λ r. RequestOf hessian node_limit header self.fed r) }

        // The types and classes of its arguments stand in the order of first use, each once.
        ensures tables { IfOk result (λ r. InOrderOfUse r.args) }

        // Where they are a request, it is read, unless memory is wanted.
        ensures complete { (header : AHeader) → (r : ARequest) → self.started ≡ Some header
            → RequestOf hessian node_limit header self.fed r
            → MatchResult result (λ read. SaysTheSame read r) (λ fault. fault ≡ RequestFault.OutOfMemory) }

        // What is refused is refused for the cause, and at the place, that the definition of refusals gives.
        ensures why { (header : AHeader) → self.started ≡ Some header
            → IfErr result (λ fault. fault ≢ RequestFault.OutOfMemory → IsRefusedRequest header self.fed fault) }
    {
        let RequestReader {
            alloc,
            header: _,
            progress,
            count,
            fed: _,
        } = self;
        progress.finish(alloc, count)
    }
}

impl BodySink for RequestReader {
    ghost started = { λ r. r.started };

    ghost fed = { λ r. r.fed };

    fn start(&mut self, header: &Header) {
        self.header = Some(*header);
        self.progress = Progress::begin(self.alloc, header);
        self.count = 0;
        self.fed = FedBytes::empty();
    }

    fn feed(&mut self, piece: &[u8]) {
        let progress = mem::replace(
            &mut self.progress,
            Progress::Refused(RequestFault::OutOfMemory),
        );
        self.progress = progress.fed(self.alloc, self.count, piece);
        self.count += piece.len();
        self.fed = self.fed.extended(piece);
    }
}
