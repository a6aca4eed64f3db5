//! The ring: names, and an ordered set of their points.

ghost use Rattle.std.specs.Prelude.{◌≡◌, ◌↔◌, List, ℕ, [], None, IfSome, IfErr, OnOk, IsTrue};
ghost use Rattle.std.specs.List.{Contains};
ghost use Rattle.hash_ring.specs.Names.{AreNames, with_name, without};
ghost use Rattle.hash_ring.specs.Refusals.{HasRoomFor, Refuses};
ghost use Rattle.hash_ring.specs.Choice.{IsChosen};

use crate::fault::RingFault;
use crate::held::{drop_points, first_from, put_name};
use crate::name::bad_place;
use crate::point::{Point, key_number};
use std::alloc::Global;
use std::collections::BTreeSet;
use std::marker::Model;

/// The most names that a ring may have.
pub const RING_LIMIT: usize = 1024;

/// Names on a ring of points, of which a key gets one.
///
/// Contracts see a ring as the list of its names in the order of their bytes.
#[derive(Drop)]
pub struct Ring {
    alloc: Global,
    names: BTreeSet<String>,
    points: BTreeSet<Point>,
}

impl Model for Ring {
    ghost use Rattle.std.specs.Prelude.{List, ℕ};

    ghost Value = { List (List ℕ) };

    ghost use Rattle.hash_ring.specs.RingFields.{names_of, IsSound};

    ghost view = { names_of };

    ghost invariant = { IsSound };
}

impl Ring {
    /// A ring with no names, which takes its memory from `alloc`.
    pub fn new(alloc: Global) -> Ring
        ensures { result ≡ [] }
    {
        Ring {
            alloc,
            names: BTreeSet::new(alloc),
            points: BTreeSet::new(alloc),
        }
    }

    /// Puts a name in, of 1 to 255 bytes that ASCII prints, without the space.
    ///
    /// After a refusal the names are as before.
    pub fn add(&mut self, name: &str) -> Result<(), RingFault>
        ensures room { OnOk result (HasRoomFor self.old name.now) }
        ensures added { OnOk result (self.new ≡ with_name name.now self.old) }
        ensures refused { IfErr result (Refuses self.old name.now) }
        ensures unchanged { IfErr result (λ _. self.new ≡ self.old) }
    {
        if let Some(at) = bad_place(name.as_bytes()) {
            return Err(RingFault::BadName { at });
        }
        if self.names.contains(name) {
            return Err(RingFault::Repeated);
        }
        if self.names.len() >= RING_LIMIT {
            return Err(RingFault::TooMany);
        }
        let Ok(()) = put_name(self.alloc, &mut self.names, &mut self.points, name) else {
            return Err(RingFault::OutOfMemory);
        };
        Ok(())
    }

    /// Takes a name out, and says whether the ring had it. It takes no memory.
    pub fn remove(&mut self, name: &str) -> bool
        ensures had { IsTrue result ↔ Contains self.old name.now }
        ensures rest { self.new ≡ without name.now self.old }
    {
        if !self.names.remove(name) {
            return false;
        }
        drop_points(&mut self.points, name);
        true
    }

    /// The names that contracts see are in the order of their bytes, each once, and at most 1,024.
    ///
    /// A law for callers: the call does nothing.
    pub fn names_in_order(&self)
        ensures { AreNames self.now }
    {
        let _ = &self.names;
    }

    /// The name that a key gets: that of the first point from the key's own number on, or where
    /// there is none, of the first point of all. It takes no memory.
    pub fn choose(&self, key: &[u8]) -> Option<&str>
        ensures none { (result ≡ None) ↔ (self.now ≡ []) }
        ensures chosen { IfSome result (λ name. IsChosen self.now key.now name.now) }
    {
        let point = first_from(self.alloc, &self.points, key_number(key))?;
        Some(point.name.as_str())
    }
}
