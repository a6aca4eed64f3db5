//! The service lines that have come, so that one is found without going over them all.

ghost use Rattle.std.specs.Prelude.{◌≡◌, ◌↔◌, ◌⊎◌, ℕ, List, [], IsTrue, IfOk, OnOk};
ghost use Rattle.std.specs.List.{Contains};

use std::alloc::{AllocError, Global};
use std::collections::BTreeSet;
use std::marker::Model;

/// A set of lines, seen by contracts as a list of them.
#[derive(Drop)]
pub struct Services {
    lines: BTreeSet<Vec<u8>>,
}

impl Model for Services {
    ghost use Rattle.std.specs.Prelude.{ℕ, List, map};

    ghost Value = { List (List ℕ) };

    ghost view = { λ s. map (λ line. line.items) s.lines.keys };
}

impl Services {
    /// No lines.
    pub fn new(alloc: Global) -> Services
        ensures { result ≡ [] }
    {
        Services {
            lines: BTreeSet::new(alloc),
        }
    }

    /// Whether the line has come.
    pub fn has(&self, line: &[u8]) -> bool
        ensures { IsTrue result ↔ Contains self.now line.now }
    {
        self.lines.contains(line)
    }

    /// Adds the line, and says whether it is new.
    pub fn add(&mut self, line: Vec<u8>) -> Result<bool, AllocError>
        ensures fresh { IfOk result (λ fresh. IsTrue fresh ↔ ¬ Contains self.old line.items) }
        ensures lines { OnOk result ((other : List ℕ) →
            Contains self.new other ↔ (Contains self.old other ⊎ (line.items ≡ other))) }
    {
        let fresh = self.lines.insert(line)?;
        Ok(fresh)
    }
}
