//! The bytes that a reader was fed, for contracts alone: when the program runs there are none.

ghost use Rattle.std.specs.Prelude.{◌≡◌, ◌++◌, List, ℕ, []};
ghost use base.Fml.{ftrue};

use std::marker::{Model, PhantomData};

/// The bytes that came, which only contracts see.
pub(crate) struct FedBytes {
    marker: PhantomData<u8>,
    pub ghost bytes: { List ℕ },
}

impl Model for FedBytes {
    ghost also_owns = { λ _. ftrue };
}

impl FedBytes {
    /// No bytes.
    pub(crate) fn empty() -> FedBytes
        ensures { result.bytes ≡ [] }
    {
        FedBytes {
            marker: PhantomData,
        }
    }

    /// These bytes, and then the piece.
    pub(crate) fn extended(&self, piece: &[u8]) -> FedBytes
        ensures { result.bytes ≡ self.now.bytes ++ piece.now }
    {
        let _ = piece;
        FedBytes {
            marker: PhantomData,
        }
    }
}

impl Drop for FedBytes {
    fn drop(self) {
        let Self { marker: _ } = self;
    }
}
