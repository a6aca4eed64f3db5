//! Where bytes come from.
ghost use Rattle.dubbo_io.specs.Source.{SourceState, IsSoundSource, Reads};

/// What a read answers.
#[derive(Clone, Copy, Debug, PartialEq, Eq)]
pub enum Got {
    /// So many bytes now stand at the front of the buffer.
    Bytes(usize),
    /// Nothing is left, now and from now on.
    End,
    /// The source failed, and gave nothing.
    Failed,
}

/// Bytes that come one after another.
///
/// A failed read leaves the source as it was, but for its count of faults, so the next read goes on from there.
pub trait Source {
    /// What else a caller must know of this source. No read changes it.
    ghost Badge: { Type 0 } = { Unit {0} };

    /// The bytes given and left, where they are told, how many were given, whether the end came, and the faults.
    ghost state: { Self → SourceState Badge };

    /// Reads the next bytes into the front of `into`: at least one, where it has room for one and one is left.
    fn read(&mut self, into: &mut [u8]) -> Got
        ensures reads { Reads (state self.old) (state self.new) into.new result };

    /// Counts keep their range, the bytes told are as many as counted, and behind the end nothing is left.
    ghost sound: { (source : Self) → IsSoundSource (state source) };
}
