//! A reader of replies that takes a body in pieces.

mod came;
mod kind;
mod outcome;
mod reading;
mod stage;
mod text;
mod values;

ghost use Rattle.std.specs.Prelude.{◌≡◌, ◌≢◌, [], None, Some, IsSome, IfOk, IfErr, MatchResult};
ghost use Rattle.dubbo_header.specs.declared.header.Header.{Header as AHeader};
ghost use Rattle.hessian_reader.specs.Leaves.{hessian, node_limit};
ghost use Rattle.dubbo_bodies.specs.declared.message.Reply.{Reply as AReply};
ghost use Rattle.dubbo_bodies.specs.ReplyBody.{ReplyOf};
ghost use Rattle.dubbo_bodies.specs.RefusedReply.{IsOfReply, IsRefusedReply, IsSameReply};

use crate::message::Reply;
use crate::reply_fault::ReplyFault;
use dubbo_header::Header;
use link_frames::BodySink;
pub(crate) use reading::Reading;
use std::alloc::Global;
use std::marker::Model;

/// Reads one reply after another from bodies that come in any pieces.
///
/// Contracts see the header that it was started with, and the bytes that it was fed since. The first refusal stays until
/// the next start, want of memory included. Of a frame that is a request or an event nothing is kept.
#[derive(Drop)]
pub struct ReplyReader {
    alloc: Global,
    reading: Option<Reading>,
}

impl Model for ReplyReader {
    ghost use Rattle.dubbo_bodies.specs.FedBody.{FedBody};
    ghost use Rattle.dubbo_bodies.specs.ReplyStages.{fed_body, HasStage};

    ghost Value = { FedBody };

    ghost view = { λ r. fed_body r.reading };

    ghost invariant = { λ r. HasStage r.reading };
}

impl BodySink for ReplyReader {
    ghost started = { λ r. r.started };

    ghost fed = { λ r. r.fed };

    fn start(&mut self, header: &Header) {
        self.reading = Some(Reading::begin(self.alloc, header));
    }

    fn feed(&mut self, piece: &[u8]) {
        let Some(reading) = self.reading.take() else {
            unreachable!()
        };
        self.reading = Some(reading.fed(self.alloc, piece));
    }
}

impl ReplyReader {
    /// A reader that wasn't started.
    pub fn new(alloc: Global) -> ReplyReader
        ensures { result ≡ record { started = None; fed = [] } }
    {
        ReplyReader {
            alloc,
            reading: None,
        }
    }

    /// The reply that the header and the bytes fed are, or why they are none.
    pub fn finish(self) -> Result<Reply, ReplyFault>
        requires started { IsSome self.started }
        requires reply { (header : AHeader) → self.started ≡ Some header → IsOfReply header }

        // What is answered is read from them.
        ensures ok { (header : AHeader) → self.started ≡ Some header → IfOk result (ReplyOf hessian node_limit header self.fed) }

        // What they are is answered, unless memory is wanted.
        ensures complete { (header : AHeader) → self.started ≡ Some header → (reply : AReply) → ReplyOf hessian node_limit header self.fed reply
            → MatchResult result (λ read. IsSameReply read reply) (λ fault. fault ≡ ReplyFault.OutOfMemory) }

        // Nothing else is refused, and each refusal has the cause and the place of the definition.
        ensures refused { (header : AHeader) → self.started ≡ Some header
            → IfErr result (λ fault. fault ≢ ReplyFault.OutOfMemory → (reply : AReply) → ReplyOf hessian node_limit header self.fed reply → ⊥) }
        ensures why { (header : AHeader) → self.started ≡ Some header
            → IfErr result (λ fault. fault ≢ ReplyFault.OutOfMemory → IsRefusedReply header self.fed fault) }
    {
        let ReplyReader { alloc, reading } = self;
        let Some(reading) = reading else {
            unreachable!()
        };
        reading.finish(alloc)
    }
}
