//! Numbers from 0 in the order in which things come.

ghost use Rattle.std.specs.Prelude.{◌≡◌, ◌<◌, ◌≤◌, ◌^◌, ◌++◌, ◌∷◌, [], length, IfOk, OnOk, None};
ghost use Rattle.hessian_graph.specs.Canon.{place_of};
ghost use Rattle.hessian_writer.specs.Numbered.{none_of};

use std::alloc::{AllocError, Global};
use std::marker::Model;

/// Things of which some have a number. Each thing is named by its place in a table of its own.
///
/// Contracts see how many things there are, and those that have a number, in the order of their numbers.
#[derive(Drop)]
pub(crate) struct Numbering {
    numbers: Vec<Option<u32>>,
    order: Vec<usize>,
}

impl Model for Numbering {
    ghost use Rattle.std.specs.Prelude.{length};
    ghost use Rattle.hessian_writer.specs.Numbered.{Numbered, AreNumbers};

    ghost Value = { Numbered };

    ghost view = { λ a. record { total = length a.numbers.items; order = a.order.items } };

    ghost invariant = { λ a. AreNumbers a.numbers.items a.order.items };
}

impl Numbering {
    /// So many things, none of which has a number.
    pub fn new(alloc: Global, total: usize) -> Result<Numbering, AllocError>
        ensures { IfOk result (λ a. a ≡ none_of total) }
    {
        let mut numbers = Vec::new(alloc);
        numbers.resize(total, None)?;
        Ok(Numbering {
            numbers,
            order: Vec::new(alloc),
        })
    }

    /// The number of a thing, once it has one.
    pub fn number(&self, thing: usize) -> Option<u32>
        requires { thing < self.now.total }
        ensures { result ≡ place_of thing self.now.order }
    {
        self.numbers[thing]
    }

    /// How many things have a number.
    pub fn count(&self) -> usize
        ensures { result ≡ length self.now.order }
    {
        self.order.len()
    }

    /// Gives a thing the next number.
    #[tactic(auto, using(crate::proofs::Numbers::some_left))]
    pub fn give(&mut self, thing: usize) -> Result<(), AllocError>
        requires within { thing < self.old.total }
        requires new { place_of thing self.old.order ≡ None }
        requires room { length self.old.order < 2 ^ 32 }
        ensures given { OnOk result (self.new ≡ record self.old { order = self.old.order ++ thing ∷ [] }) }
        ensures room { length self.old.order < self.old.total }
    {
        let number = self.order.len() as u32;
        self.order.push(thing)?;
        self.numbers[thing] = Some(number);
        Ok(())
    }
}
