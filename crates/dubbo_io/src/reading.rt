//! Reading a source to its end.
ghost use Rattle.std.specs.Prelude.{◌+◌, ◌≤◌, IfOk, IfErr, OnOk, IsTrue, vec_len};
ghost use Rattle.dubbo_io.specs.Source.{GoesOn, GaveAtMost};
ghost use Rattle.dubbo_io.specs.ReadFault.{StopsReading};

use crate::{Got, Source};
use std::alloc::Global;
use thiserror::Error;

/// Why a source was not read to its end.
#[derive(Clone, Copy, Debug, PartialEq, Eq, Error)]
pub enum ReadFault {
    /// The source failed. `faults` counts the reads of this call that failed: the first ends it.
    #[error("the source failed")]
    Fault { faults: u64 },
    /// The source has more bytes than the limit.
    #[error("there are more than {limit} bytes")]
    TooLong { limit: usize },
    /// There was no memory for the bytes.
    #[error("out of memory")]
    OutOfMemory,
}

/// The most bytes that one read asks for.
const PIECE: usize = 65_536;

/// Reads all that is left, of at most `limit` bytes.
///
/// After a refusal the bytes read are gone from the source. No byte behind number `limit + 1` is asked for.
pub fn read_all<S: Source>(
    alloc: Global,
    source: &mut S,
    limit: usize,
) -> Result<Vec<u8>, ReadFault>
    ensures bytes { IfOk result (λ bytes. GoesOn (S.state source.old) (S.state source.new) bytes.items) }
    ensures end { OnOk result (IsTrue (S.state source.new).ended) }
    ensures within { IfOk result (λ bytes. vec_len bytes ≤ limit) }
    ensures refused { IfErr result (StopsReading (S.state source.old) (S.state source.new) limit) }

    // Whatever the answer is.
    ensures goes_on { GaveAtMost (S.state source.old) (S.state source.new) (limit + 1) }
{
    let mut bytes = Vec::new(alloc);
    let mut buffer = [0u8; PIECE];
    loop {
        let room = limit - bytes.len();
        let want = if room < PIECE { room + 1 } else { PIECE };
        let piece = &mut buffer[..want];
        match source.read(piece) {
            Got::Bytes(n) => {
                if n > room {
                    return Err(ReadFault::TooLong { limit });
                }
                if bytes.extend_from_slice(&piece[..n]).is_err() {
                    return Err(ReadFault::OutOfMemory);
                }
            }
            Got::End => return Ok(bytes),
            Got::Failed => return Err(ReadFault::Fault { faults: 1 }),
        }
    }
}
