//! A source over a reader.
ghost use Rattle.std.specs.Prelude.{◌≤◌};
ghost use Rattle.dubbo_io.specs.Count.{last_count};

use crate::counts::{LAST_COUNT, risen};
use crate::{Got, Source};
use std::io::Read;

/// Gives what a reader gives, and counts as a fault each of its errors.
///
/// It gives at most 2^62 - 1 bytes: a read behind them fails, and is counted as a fault too.
#[derive(Drop)]
pub struct StdSource<T> {
    inner: T,
    given: u64,
    faults: u64,
    ended: bool,
    ghost given_in_range: { given ≤ last_count },
    ghost faults_in_range: { faults ≤ last_count },
}

impl<T> StdSource<T> {
    ghost use Rattle.std.specs.Prelude.{◌≡◌};
    ghost use Rattle.dubbo_io.specs.StdSource.{std_source_state, fresh_source};

    /// A source that has given nothing yet.
    pub fn new(inner: T) -> StdSource<T>
        ensures { std_source_state result ≡ fresh_source }
    {
        StdSource {
            inner,
            given: 0,
            faults: 0,
            ended: false,
        }
    }
}

impl<T: Read> Source for StdSource<T> {
    ghost use Rattle.dubbo_io.specs.StdSource.{std_source_state, std_source_sound};

    ghost state = { std_source_state };

    ghost sound = { std_source_sound };

    fn read(&mut self, into: &mut [u8]) -> Got {
        if into.is_empty() {
            return Got::Bytes(0);
        }
        if self.ended {
            return Got::End;
        }
        let left = LAST_COUNT - self.given;
        if left == 0 {
            self.faults = risen(self.faults);
            return Got::Failed;
        }
        let most = into.len().min(left as usize);
        match self.inner.read(&mut into[..most]) {
            Ok(0) => {
                self.ended = true;
                Got::End
            }
            Ok(n) => {
                self.given += n as u64;
                Got::Bytes(n)
            }
            Err(_) => {
                self.faults = risen(self.faults);
                Got::Failed
            }
        }
    }
}
