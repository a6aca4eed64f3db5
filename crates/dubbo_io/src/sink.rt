//! Where bytes go.
ghost use Rattle.dubbo_io.specs.Sink.{SinkState, IsSoundSink, Writes, Flushes};

/// What a write answers.
#[derive(Clone, Copy, Debug, PartialEq, Eq)]
pub enum Took {
    /// So many bytes of the piece's front are gone.
    Bytes(usize),
    /// The sink failed, and took nothing.
    Failed,
}

/// What a flush answers.
#[derive(Clone, Copy, Debug, PartialEq, Eq)]
pub enum Flushed {
    /// What was taken has been passed on.
    Done,
    /// The sink failed.
    Failed,
}

/// A place that takes bytes one after another.
///
/// A sink may admit only some bytes, as one that carries a protocol does. A caller shows that what it writes is admitted.
pub trait Sink {
    /// What else a caller must know of this sink. No write or flush changes it.
    ghost Badge: { Type 0 } = { Unit {0} };

    /// The bytes gone, where they are told, which pieces may be written, and the faults.
    ghost state: { Self → SinkState Badge };

    /// Takes bytes from the front of `piece`: at least one, where there is one.
    fn write(&mut self, piece: &[u8]) -> Took
        requires { (state self.old).admits piece.now }
        ensures writes { Writes (state self.old) (state self.new) piece.now result };

    /// Passes on what was taken.
    fn flush(&mut self) -> Flushed
        ensures flushes { Flushes (state self.old) (state self.new) result };

    /// A front of an admitted piece is admitted, and a sink that is open to all admits every piece.
    ghost sound: { (sink : Self) → IsSoundSink (state sink) };
}
