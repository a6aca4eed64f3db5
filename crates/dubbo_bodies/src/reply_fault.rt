//! Why a body is no reply.

use hessian_reader::HessianFault;
use std::alloc::AllocError;
use thiserror::Error;

/// Why a header and a body are no reply. Places count from 0 in the body.
///
/// A `BadSerial` comes before all else, then the faults in the order of the bytes.
#[derive(Clone, Copy, Debug, PartialEq, Eq, Error)]
pub enum ReplyFault {
    /// The number of another serialization than Hessian 2.
    #[error("the serialization has number {number}")]
    BadSerial { number: u8 },
    /// The bytes aren't the kind and the values of a reply, or the text of a status. It never says that memory ran out.
    #[error("{0}")]
    Hessian(HessianFault),
    /// The number of no kind of reply.
    #[error("no kind of reply has number {number}")]
    BadKind { number: i32 },
    /// The value in the attachments' place is neither null nor a map whose keys are texts.
    #[error("the attachments are no map of texts")]
    BadAttachments,
    /// Memory ran out.
    #[error("out of memory")]
    OutOfMemory,
}

impl From<AllocError> for ReplyFault {
    ghost use Rattle.std.specs.Prelude.{◌≡◌};
    ghost use Rattle.dubbo_bodies.specs.declared.reply_fault.ReplyFault.TheVariants.{OutOfMemory};

    ghost from_gives = { λ _ e. e ≡ OutOfMemory };

    fn from(_error: AllocError) -> ReplyFault {
        ReplyFault::OutOfMemory
    }
}

impl From<HessianFault> for ReplyFault {
    ghost use Rattle.dubbo_bodies.specs.ReplyFaults.{ReplyFaultOf};

    ghost from_gives = { ReplyFaultOf };

    fn from(fault: HessianFault) -> ReplyFault {
        match fault {
            HessianFault::OutOfMemory => ReplyFault::OutOfMemory,
            fault => ReplyFault::Hessian(fault),
        }
    }
}
