//! A sink that keeps what it takes.
ghost use Rattle.std.specs.Prelude.{◌≡◌, ◌≤◌, vec_len, vec_capacity};

use super::schedule::Schedule;
use super::step_of;
use crate::{Flushed, OutOfMemory, Sink, Took};
use std::alloc::Global;

/// Keeps what it takes, up to its room. It fails exactly at the calls named, and where its room is full.
///
/// Writes and flushes are counted together, from 1. A write of no bytes isn't counted, and takes nothing.
#[derive(Drop)]
pub struct MemSink {
    bytes: Vec<u8>,
    room: usize,
    cut: usize,
    schedule: Schedule,
    ghost within: { vec_len bytes ≤ room },
    ghost reserved: { room ≤ vec_capacity bytes },
}

impl MemSink {
    ghost use Rattle.std.specs.Prelude.{◌≡◌, [], Some, IfOk};
    ghost use Rattle.dubbo_io.specs.MemSink.{mem_sink_state, mem_sink_calls, mem_sink_room};
    ghost use Rattle.dubbo_io.specs.Calls.{before_calls};

    /// A sink with this room, which it reserves, so that later calls take no memory.
    ///
    /// A write takes at most `cut` bytes. A `cut` of 0 is no bound.
    pub fn new(
        alloc: Global,
        room: usize,
        cut: usize,
        fails: Vec<u64>,
    ) -> Result<MemSink, OutOfMemory>
        ensures gone { IfOk result (λ sink. (mem_sink_state sink).gone ≡ Some []) }
        ensures open { IfOk result (λ sink. (mem_sink_state sink).open_to_all) }
        ensures faults { IfOk result (λ sink. (mem_sink_state sink).faults ≡ 0) }
        ensures room { IfOk result (λ sink. mem_sink_room sink ≡ room) }
        ensures calls { IfOk result (λ sink. mem_sink_calls sink ≡ before_calls fails.items cut) }
    {
        Ok(MemSink {
            bytes: Vec::with_capacity(alloc, room)?,
            room,
            cut,
            schedule: Schedule::new(fails),
        })
    }

    /// The bytes that are gone into the sink.
    pub fn bytes(&self) -> &[u8]
        ensures { (mem_sink_state self.now).gone ≡ Some result.now }
    {
        &self.bytes
    }
}

impl Sink for MemSink {
    ghost use Rattle.std.specs.Prelude.{◌≡◌, ◌<◌, ◌↔◌, ◌⊎◌, length};
    ghost use Rattle.dubbo_io.specs.Sink.{Writes, Flushes};
    ghost use Rattle.dubbo_io.specs.MemSink.{mem_sink_state, mem_sink_calls, mem_sink_room, mem_sink_sound, IsFull, TakesFew};
    ghost use Rattle.dubbo_io.specs.Calls.{NextFails, after_call};

    ghost state = { mem_sink_state };

    ghost sound = { mem_sink_sound };

    fn write(&mut self, piece: &[u8]) -> Took
        ensures writes { Writes (mem_sink_state self.old) (mem_sink_state self.new) piece.now result }
        ensures fails { (result ≡ Took.Failed)
            ↔ ((0 < length piece.now) × (NextFails (mem_sink_calls self.old) ⊎ IsFull self.old)) }
        ensures few { TakesFew (mem_sink_calls self.old) result }
        ensures counted { 0 < length piece.now
            → mem_sink_calls self.new ≡ after_call (mem_sink_calls self.old) }
        ensures uncounted { length piece.now ≡ 0 → self.new ≡ self.old }
        ensures room { mem_sink_room self.new ≡ mem_sink_room self.old }
    {
        if piece.is_empty() {
            return Took::Bytes(0);
        }
        if self.schedule.next_fails() {
            self.schedule.fail();
            return Took::Failed;
        }
        let left = self.room - self.bytes.len();
        if left == 0 {
            self.schedule.fail();
            return Took::Failed;
        }
        let n = step_of(left, piece.len(), self.cut);
        match self.bytes.extend_from_slice(&piece[..n]) {
            Ok(()) => Took::Bytes(n),
            Err(_) => unreachable!(),
        }
    }

    fn flush(&mut self) -> Flushed
        ensures flushes { Flushes (mem_sink_state self.old) (mem_sink_state self.new) result }
        ensures fails { (result ≡ Flushed.Failed) ↔ NextFails (mem_sink_calls self.old) }
        ensures counted { mem_sink_calls self.new ≡ after_call (mem_sink_calls self.old) }
        ensures room { mem_sink_room self.new ≡ mem_sink_room self.old }
    {
        if self.schedule.next_fails() {
            self.schedule.fail();
            return Flushed::Failed;
        }
        Flushed::Done
    }
}
