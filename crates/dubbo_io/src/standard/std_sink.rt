//! A sink over a writer.
ghost use Rattle.std.specs.Prelude.{◌≤◌};
ghost use Rattle.dubbo_io.specs.Count.{last_count};

use crate::counts::risen;
use crate::{Flushed, Sink, Took};
use std::io::Write;

/// Hands bytes to a writer, and counts as a fault each of its errors and each write that takes nothing.
#[derive(Drop)]
pub struct StdSink<T> {
    inner: T,
    faults: u64,
    ghost faults_in_range: { faults ≤ last_count },
}

impl<T> StdSink<T> {
    ghost use Rattle.std.specs.Prelude.{◌≡◌, None};
    ghost use Rattle.dubbo_io.specs.StdSink.{std_sink_state};

    /// A sink that has taken nothing yet.
    pub fn new(inner: T) -> StdSink<T>
        ensures untold { (std_sink_state result).gone ≡ None }
        ensures open { (std_sink_state result).open_to_all }
        ensures faults { (std_sink_state result).faults ≡ 0 }
    {
        StdSink { inner, faults: 0 }
    }
}

impl<T: Write> Sink for StdSink<T> {
    ghost use Rattle.dubbo_io.specs.StdSink.{std_sink_state, std_sink_sound};

    ghost state = { std_sink_state };

    ghost sound = { std_sink_sound };

    fn write(&mut self, piece: &[u8]) -> Took {
        if piece.is_empty() {
            return Took::Bytes(0);
        }
        match self.inner.write(piece) {
            Ok(n) if n > 0 => Took::Bytes(n),
            _ => {
                self.faults = risen(self.faults);
                Took::Failed
            }
        }
    }

    fn flush(&mut self) -> Flushed {
        match self.inner.flush() {
            Ok(()) => Flushed::Done,
            Err(_) => {
                self.faults = risen(self.faults);
                Flushed::Failed
            }
        }
    }
}
