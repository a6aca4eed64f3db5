//! A source that is a list of bytes.
ghost use Rattle.std.specs.Prelude.{◌≡◌, ◌≤◌, ◌<◌, ◌-◌, ◌^◌, IsTrue, vec_len, take, length};

use super::schedule::Schedule;
use super::step_of;
use crate::{Got, Source};

/// Gives the bytes of a list. It fails exactly at the reads named, counted from 1, and then gives nothing.
#[derive(Drop)]
pub struct MemSource {
    bytes: Vec<u8>,
    at: usize,
    cut: usize,
    schedule: Schedule,
    ended: bool,
    ghost within: { at ≤ vec_len bytes },
    ghost few: { vec_len bytes < 2 ^ 62 - 1 },
    ghost none_left: { IsTrue ended → at ≡ vec_len bytes },
}

impl MemSource {
    ghost use Rattle.dubbo_io.specs.MemSource.{mem_source_state, mem_source_calls, fresh};
    ghost use Rattle.dubbo_io.specs.Calls.{before_calls};

    /// A source of these bytes, of which a read gives at most `cut`. A `cut` of 0 is no bound.
    pub fn new(bytes: Vec<u8>, cut: usize, fails: Vec<u64>) -> MemSource
        requires { vec_len bytes < 2 ^ 62 - 1 }
        ensures state { mem_source_state result ≡ fresh bytes.items }
        ensures calls { mem_source_calls result ≡ before_calls fails.items cut }
    {
        MemSource {
            bytes,
            at: 0,
            cut,
            schedule: Schedule::new(fails),
            ended: false,
        }
    }
}

impl Source for MemSource {
    ghost use Rattle.std.specs.Prelude.{◌≡◌, ◌<◌, ◌↔◌, length};
    ghost use Rattle.dubbo_io.specs.Source.{Reads};
    ghost use Rattle.dubbo_io.specs.MemSource.{mem_source_state, mem_source_calls, mem_source_sound, ReadsFew};
    ghost use Rattle.dubbo_io.specs.Calls.{NextFails, after_call};

    ghost state = { mem_source_state };

    ghost sound = { mem_source_sound };

    fn read(&mut self, into: &mut [u8]) -> Got
        ensures reads { Reads (mem_source_state self.old) (mem_source_state self.new) into.new result }
        ensures fails { 0 < length into.new → ((result ≡ Got.Failed) ↔ NextFails (mem_source_calls self.old)) }
        ensures few { ReadsFew (mem_source_calls self.old) result }

        // A read into no room isn't counted.
        ensures counted { 0 < length into.new
            → mem_source_calls self.new ≡ after_call (mem_source_calls self.old) }
        ensures uncounted { length into.new ≡ 0 → self.new ≡ self.old }
    {
        if into.is_empty() {
            return Got::Bytes(0);
        }
        if self.schedule.next_fails() {
            self.schedule.fail();
            return Got::Failed;
        }
        let left = &self.bytes[self.at..];
        if left.is_empty() {
            self.ended = true;
            return Got::End;
        }
        let n = step_of(left.len(), into.len(), self.cut);
        copy_front(into, left, n);
        self.at += n;
        Got::Bytes(n)
    }
}

/// Copies the first `n` bytes.
fn copy_front(into: &mut [u8], from: &[u8], n: usize)
    requires to { n ≤ length into.old }
    requires of { n ≤ length from.now }
    ensures { take n into.new ≡ take n from.now }
{
    into[..n].copy_from_slice(&from[..n]);
}
