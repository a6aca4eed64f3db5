//! A text or a binary that has begun.

ghost use Rattle.std.specs.Prelude.{◌≡◌};

use hessian_text::{ChunkReader, Kind};
use std::alloc::Global;

/// A text or a binary, as far as it came.
#[derive(Drop)]
pub struct Chunks {
    /// Which of the two.
    pub kind: Kind,
    /// What came.
    pub reader: ChunkReader,
    ghost same: { reader.kind ≡ kind },
}

impl Chunks {
    ghost use Rattle.std.specs.Prelude.{[]};
    ghost use Rattle.hessian_text.specs.declared.stage.Stage.TheVariants.{Code};

    /// A text or a binary of which nothing came.
    pub fn new(alloc: Global, kind: Kind) -> Chunks
        ensures kind { result.kind ≡ kind }
        ensures reader { result.reader ≡ record { kind = kind; done = []; stage = Code } }
    {
        Chunks {
            kind,
            reader: ChunkReader::new(alloc, kind),
        }
    }
}
