//! The bytes of one read that no frame has taken yet.

ghost use Rattle.std.specs.Prelude.{◌≡◌, ◌≤◌, ◌-◌, List, ℕ, [], IfOk, length, drop, slice_range, vec_len};

use bytes::BytesMut;
use dubbo_io::{Got, OutOfMemory, Source};
use std::alloc::Global;
use std::marker::Model;

/// How many bytes a read may give at most.
const ROOM: usize = 16_384;

/// The last read's bytes from the first that no frame has taken. It is made with all the room that it ever uses.
#[derive(Drop)]
pub struct Window {
    bytes: BytesMut,
    start: usize,
    end: usize,
}

impl Model for Window {
    ghost use Rattle.std.specs.Prelude.{◌≡◌, ◌≤◌, List, ℕ, length, slice_range};
    ghost use Rattle.link_frames.specs.declared.window.TheConstants.{ROOM};

    ghost Value = { List ℕ };

    ghost view = { λ w. slice_range w.bytes.items w.start w.end };

    ghost invariant = { λ w. (w.start ≤ w.end) × (w.end ≤ ROOM) × (length w.bytes.items ≡ ROOM) };
}

impl Window {
    ghost use Rattle.link_frames.specs.Window.{Fills};

    /// No bytes, and the room for a read.
    pub fn new(alloc: Global) -> Result<Window, OutOfMemory>
        ensures { IfOk result (λ window. window ≡ []) }
    {
        Ok(Window {
            bytes: BytesMut::zeroed(alloc, ROOM)?,
            start: 0,
            end: 0,
        })
    }

    /// The bytes.
    pub fn as_slice(&self) -> &[u8]
        ensures { result.now ≡ self.now }
    {
        &self.bytes[self.start..self.end]
    }

    /// Lets the first `n` bytes go.
    pub fn consume(&mut self, n: usize)
        requires { n ≤ length self.old }
        ensures { self.new ≡ drop n self.old }
    {
        self.start += n;
    }

    /// Reads once, where nothing is left.
    pub fn fill<S: Source>(&mut self, source: &mut S) -> Got
        requires { self.old ≡ [] }
        ensures { Fills (S.state source.old) (S.state source.new) self.new result }
    {
        self.start = 0;
        self.end = 0;
        let got = source.read(&mut self.bytes);
        if let Got::Bytes(n) = got {
            self.end = n;
        }
        got
    }
}
