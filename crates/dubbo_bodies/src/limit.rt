//! The most bytes of a body.

ghost use Rattle.std.specs.Prelude.{◌≡◌, ◌<◌, ◌≤◌, length, IfOk, IfErr};
ghost use Rattle.dubbo_bodies.specs.WrittenBody.{LIMIT};

use crate::fault::WriteBodyFault;
use dubbo_header::BODY_LIMIT;

/// A body as it is, or its length where a frame has no room for it.
pub(crate) fn within_limit(body: Vec<u8>) -> Result<Vec<u8>, WriteBodyFault>
    ensures same { IfOk result (λ same. same.items ≡ body.items) }
    ensures short { IfOk result (λ same. length body.items ≤ LIMIT) }
    ensures refused { IfErr result (λ fault. fault ≡ WriteBodyFault.TooLong (length body.items)) }
    ensures long { IfErr result (λ fault. LIMIT < length body.items) }
{
    let length = body.len();
    if length > BODY_LIMIT as usize {
        return Err(WriteBodyFault::TooLong { length });
    }
    Ok(body)
}
