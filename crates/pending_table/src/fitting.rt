//! Which values may answer an id.
ghost use Rattle.std.specs.Prelude.{◌≡◌, ℕ};
ghost use Rattle.std.proofs.Math.Nat.{ℕ_set};

/// A value that may answer an id, where it fits.
pub trait Fits: Send {
    /// What decides which values fit, as the script of a run does.
    type Key;

    /// Whether a value fits an id under a key.
    ghost fits: { Self.Key → ℕ → Self → Type 0 };

    /// It is so in one way at most.
    ghost sole: { (key : Self.Key) (id : ℕ) (value : Self) → IsProp (fits key id value) };
}

/// Fits the id that it names, under every key.
#[derive(Debug, Drop, PartialEq, Eq)]
pub struct Tag(pub u64);

impl Fits for Tag {
    type Key = ();

    ghost fits = { λ key id value. value.0 ≡ id };

    ghost sole = { λ key id value. ℕ_set value.0 id };
}
