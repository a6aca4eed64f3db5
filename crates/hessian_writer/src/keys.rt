//! The first place of each of a table's keys.

ghost use Rattle.std.specs.Prelude.{◌≡◌, ◌++◌, ◌∷◌, ℕ, List, [], OnOk, None};
ghost use Rattle.hessian_writer.specs.Sharing.{KeysFit, find_key};

use std::alloc::{AllocError, Global};
use std::collections::BTreeMap;

/// Keys that came one after another, each with the place of the first key that is equal to it.
#[derive(Drop)]
pub(crate) struct Keys {
    /// The first place of each key.
    pub places: BTreeMap<Vec<u8>, usize>,
    /// For each place the first place of its key.
    pub firsts: Vec<usize>,
}

impl Keys {
    /// No keys.
    pub fn new(alloc: Global) -> Keys
        ensures { KeysFit [] result }
    {
        Keys {
            places: BTreeMap::new(alloc),
            firsts: Vec::new(alloc),
        }
    }

    /// Takes the key of the next place.
    pub fn add(&mut self, key: Vec<u8>) -> Result<(), AllocError>
        ensures { OnOk result ((keys : List (List ℕ)) → KeysFit keys self.old → KeysFit (keys ++ key.items ∷ []) self.new) }
    {
        match self.places.get(key.as_slice()).copied() {
            Some(first) => {
                self.add_known(first)?;
                Ok(())
            }
            None => {
                self.add_new(key)?;
                Ok(())
            }
        }
    }

    /// Takes a key that has come before, first at this place.
    fn add_known(&mut self, first: usize) -> Result<(), AllocError>
        ensures places { self.new.places ≡ self.old.places }
        ensures firsts { OnOk result (self.new.firsts.items ≡ self.old.firsts.items ++ first ∷ []) }
    {
        self.firsts.push(first)?;
        Ok(())
    }

    /// Takes a key that comes for the first time.
    fn add_new(&mut self, key: Vec<u8>) -> Result<(), AllocError>
        requires { find_key self.old key.items ≡ None }
        ensures { OnOk result ((keys : List (List ℕ)) → KeysFit keys self.old → KeysFit (keys ++ key.items ∷ []) self.new) }
    {
        let next = self.firsts.len();
        self.places.insert(key, next)?;
        self.firsts.push(next)?;
        Ok(())
    }
}
