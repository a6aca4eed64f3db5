//! A table that was closed.
ghost use Rattle.std.specs.Prelude.{◌≡◌};

use std::marker::Model;

/// What is left of a table that was closed: how many ids were opened there, and how many were settled.
#[derive(Drop)]
pub struct Closed {
    opened: u64,
    settled: u64,
}

impl Model for Closed {
    ghost use Rattle.pending_table.specs.Closing.{Counts};

    ghost Value = { Counts };

    ghost view = { λ c. record { opened = c.opened; settled = c.settled } };
}

impl Closed {
    ghost use Rattle.pending_table.specs.Closing.{Counts};

    /// Each id that was opened was settled.
    pub(crate) fn of(opened: u64) -> Closed
        ensures { (result.opened ≡ opened) × (result.settled ≡ opened) }
    {
        Closed {
            opened,
            settled: opened,
        }
    }

    /// The number of ids that were opened at all desks.
    pub fn opened(&self) -> u64
        ensures { result ≡ self.now.opened }
    {
        self.opened
    }

    /// The number of those that ended: with a value, with a loss, or given up.
    pub fn settled(&self) -> u64
        ensures { result ≡ self.now.settled }
    {
        self.settled
    }
}
