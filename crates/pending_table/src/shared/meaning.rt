//! What a reply means to the table, for functions that send nothing to another thread.
ghost use Rattle.std.specs.Prelude.{ℕ};

use crate::Fits;

/// What `Fits` means, without the right to cross threads: a method of a desk or a window, whose type is
/// bounded by `Fits`, may not lend that right to the functions that it calls.
pub trait Meaning {
    /// What decides which values fit.
    type Key;

    /// Whether a value fits an id under a key.
    ghost fits: { Self.Key → ℕ → Self → Type 0 };
}

impl<R: Fits> Meaning for R {
    type Key = <R as Fits>::Key;

    ghost fits = { R.fits };
}
