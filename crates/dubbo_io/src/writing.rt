//! Writing all of some bytes.
ghost use Rattle.std.specs.Prelude.{◌≤◌, OnOk, IfErr};
ghost use Rattle.dubbo_io.specs.Sink.{Sends, SentFront};
ghost use Rattle.dubbo_io.specs.WriteFault.{StopsWriting};

use crate::{Flushed, Sink, Took};
use thiserror::Error;

/// Why not all bytes were written and passed on.
#[derive(Clone, Copy, Debug, PartialEq, Eq, Error)]
pub enum WriteFault {
    /// The sink failed when exactly the first `gone` bytes were gone.
    ///
    /// `faults` counts the calls to the sink that failed: the first ends it.
    #[error("the sink failed behind {gone} bytes")]
    Fault { faults: u64, gone: usize },
}

/// Writes all bytes, and flushes. It takes no memory.
pub fn write_all<K: Sink>(sink: &mut K, bytes: &[u8]) -> Result<(), WriteFault>
    requires { (K.state sink.old).admits bytes.now }
    ensures ok { OnOk result (Sends (K.state sink.old) (K.state sink.new) bytes.now) }
    ensures fault { IfErr result (StopsWriting (K.state sink.old) (K.state sink.new) bytes.now) }

    // Whatever the answer is.
    ensures sends { SentFront (K.state sink.old) (K.state sink.new) bytes.now }
{
    let mut gone = 0;
    while gone < bytes.len() {
        match sink.write(&bytes[gone..]) {
            Took::Bytes(n) => gone += n,
            Took::Failed => return Err(WriteFault::Fault { faults: 1, gone }),
        }
    }
    match sink.flush() {
        Flushed::Done => Ok(()),
        Flushed::Failed => Err(WriteFault::Fault { faults: 1, gone }),
    }
}
