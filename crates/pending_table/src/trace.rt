//! A value that only clauses read, and that changes by a named step. It has no bytes.
ghost use Rattle.std.specs.Prelude.{◌≡◌};
ghost use base.Fml.{ftrue};

use std::marker::{Model, PhantomData};

/// What a trace begins as.
pub trait Begins<V> {
    ghost first: { V };
}

/// What a step makes of a trace, with what was at hand.
pub trait Extends<V, X> {
    ghost after: { V → X → V };
}

/// What has happened so far, for clauses alone.
pub struct Trace<V> {
    marker: PhantomData<V>,
    pub ghost value: { V },
}

impl<V> Model for Trace<V> {
    ghost also_owns = { λ _. ftrue };
}

impl<V> Trace<V> {
    /// The trace before any step.
    pub fn begin<C: Begins<V>>() -> Trace<V>
        ensures { result.value ≡ C.first }
    {
        Trace {
            marker: PhantomData,
        }
    }

    /// The trace after one more step.
    pub fn extended<X, C: Extends<V, X>>(&self, at_hand: &X) -> Trace<V>
        ensures { result.value ≡ C.after self.now.value at_hand.now }
    {
        let _ = at_hand;
        Trace {
            marker: PhantomData,
        }
    }
}

impl<V> Drop for Trace<V> {
    fn drop(self) {
        let Self { marker: _ } = self;
    }
}
