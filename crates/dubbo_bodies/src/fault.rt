//! Why bodies and descriptors are refused.

use hessian_reader::HessianFault;
use std::alloc::AllocError;
use thiserror::Error;

/// Why bytes are no descriptor. Places count from 0 in the descriptor.
#[derive(Clone, Copy, Debug, PartialEq, Eq, Error)]
pub enum DescFault {
    /// No descriptor goes on with the byte at this place, or the bytes end here inside a parameter.
    #[error("no parameter goes on at {at}")]
    BadDescriptor { at: usize },
    /// The 256th parameter begins at this place.
    #[error("one parameter too many begins at {at}")]
    TooManyArgs { at: usize },
}

/// Why a header and a body are no request: the first cause in the order of the bytes.
///
/// Places count from 0 in the body; those of a descriptor's fault, in the descriptor.
#[derive(Clone, Copy, Debug, PartialEq, Eq, Error)]
pub enum RequestFault {
    /// The header has this number for its serialization, which isn't that of Hessian 2.
    #[error("the serialization {number} is not read")]
    BadSerial { number: u8 },
    /// The bytes of a text or of the values are refused.
    #[error("{0}")]
    Hessian(HessianFault),
    /// Something else stands in the place of this text, which counts from 0.
    #[error("no text stands in the place of text {field}")]
    NotText { field: u8 },
    /// The descriptor is refused.
    #[error("{0}")]
    Descriptor(DescFault),
    /// The last value is neither null nor a map whose keys are texts.
    #[error("the attachments are no map of texts")]
    BadAttachments,
    /// Memory ran out.
    #[error("out of memory")]
    OutOfMemory,
}

impl From<AllocError> for RequestFault {
    ghost use Rattle.std.specs.Prelude.{◌≡◌};
    ghost use Rattle.dubbo_bodies.specs.declared.fault.RequestFault.TheVariants.{OutOfMemory};

    ghost from_gives = { λ _ e. e ≡ OutOfMemory };

    fn from(_error: AllocError) -> RequestFault {
        RequestFault::OutOfMemory
    }
}

impl From<HessianFault> for RequestFault {
    ghost use Rattle.dubbo_bodies.specs.RequestReading.{FaultOfValues};

    ghost from_gives = { FaultOfValues };

    fn from(fault: HessianFault) -> RequestFault {
        match fault {
            HessianFault::OutOfMemory => RequestFault::OutOfMemory,
            fault => RequestFault::Hessian(fault),
        }
    }
}

/// Why a body isn't written.
#[derive(Clone, Copy, Debug, PartialEq, Eq, Error)]
pub enum WriteBodyFault {
    /// The body would have so many bytes, which are more than a frame may have.
    #[error("a body of {length} bytes is too long")]
    TooLong { length: usize },
    /// Memory ran out.
    #[error("out of memory")]
    OutOfMemory,
}

impl From<AllocError> for WriteBodyFault {
    ghost use Rattle.std.specs.Prelude.{◌≡◌};
    ghost use Rattle.dubbo_bodies.specs.declared.fault.WriteBodyFault.TheVariants.{OutOfMemory};

    ghost from_gives = { λ _ e. e ≡ OutOfMemory };

    fn from(_error: AllocError) -> WriteBodyFault {
        WriteBodyFault::OutOfMemory
    }
}
