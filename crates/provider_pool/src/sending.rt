//! Writing the frame of an answer.

ghost use Rattle.std.specs.Prelude.{◌≡◌, ◌≤◌, [], ◌∷◌};
ghost use Rattle.dubbo_header.specs.declared.header.TheConstants.{BODY_LIMIT};
ghost use Rattle.dubbo_io.specs.WriteFault.{faults_of, gone_of};
ghost use Rattle.link_frames.specs.Frames.{IsFrame};
ghost use Rattle.provider_pool.specs.Writes.{Writes, answers_of, frame_of, whole_of};

use dubbo_header::Header;
use dubbo_io::{Sink, WriteFault};
use link_frames::send_frame;

/// What became of the answers to a frame.
#[derive(Clone, Copy, Debug, PartialEq, Eq)]
pub(crate) enum Outcome {
    /// All of them, so many, were written.
    Answered { answers: u64 },
    /// The sink failed; so many of its calls did, and so many answers were written whole.
    Lost { faults: u64, answers: u64 },
    /// There was no memory, and no answer is owed.
    OutOfMemory,
}

/// Writes one frame.
pub(crate) fn send<K: Sink>(sink: &mut K, header: &Header, body: &[u8]) -> Outcome
    requires whole { IsFrame (frame_of header.now body.now) }
    requires open { (K.state sink.old).open_to_all }
    ensures writes { Writes (K.state sink.old) (K.state sink.new) (frame_of header.now body.now ∷ []) result }
    ensures few { answers_of result ≤ 1 }
{
    match send_frame(sink, header, body) {
        Ok(()) => Outcome::Answered { answers: 1 },
        Err(fault) => lost(fault, body.len()),
    }
}

/// What became of a frame with a body of so many bytes, where the sink failed.
fn lost(fault: WriteFault, size: usize) -> Outcome
    requires { size ≤ BODY_LIMIT }
    ensures { result ≡ Outcome.Lost (faults_of fault) (whole_of (gone_of fault) size) }
{
    let WriteFault::Fault { faults, gone } = fault;
    let answers = if gone == 16 + size { 1 } else { 0 };
    Outcome::Lost { faults, answers }
}
