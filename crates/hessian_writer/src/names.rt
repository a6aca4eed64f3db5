//! Types and classes, of which equal ones share a number.

ghost use Rattle.std.specs.Prelude.{◌≡◌, ◌<◌, ◌^◌, ◌++◌, ◌∷◌, [], length, get_or, IfOk, OnOk, None};
ghost use Rattle.hessian_graph.specs.Shape.{no_class};
ghost use Rattle.hessian_graph.specs.Canon.{place_of};
ghost use Rattle.hessian_graph.specs.Tables.{words_of};
ghost use Rattle.hessian_graph.specs.Spells.{TextsSpelling};
ghost use Rattle.hessian_text.specs.Spelling.{AreBytes};
ghost use Rattle.hessian_writer.specs.Leaves.{hessian_forms};
ghost use Rattle.hessian_writer.specs.Numbered.{none_of};
ghost use Rattle.hessian_writer.specs.Sharing.{AreFirsts};

use crate::keys::Keys;
use crate::leaf::write_texts;
use crate::numbering::Numbering;
use hessian_graph::{Chars, Class};
use hessian_text::write_text;
use std::alloc::{AllocError, Global};

/// The names of a table, of which those that have been used have a number.
#[derive(Drop)]
pub(crate) struct Names {
    /// For each name the place of the first name that is equal to it.
    pub firsts: Vec<usize>,
    /// The numbers of the first names.
    pub used: Numbering,
}

impl Names {
    /// The types of a table, none of which has a number.
    pub fn of_types(alloc: Global, types: &[Chars]) -> Result<Names, AllocError>
        ensures firsts { IfOk result (λ n. AreFirsts [] types.now n.firsts.items) }
        ensures unused { IfOk result (λ n. n.used ≡ none_of (length types.now)) }
    {
        let firsts = first_types(alloc, types)?;
        let used = Numbering::new(alloc, types.len())?;
        Ok(Names { firsts, used })
    }

    /// The classes of a table, none of which has a number.
    pub fn of_classes(alloc: Global, classes: &[Class]) -> Result<Names, AllocError>
        ensures firsts { IfOk result (λ n. AreFirsts no_class classes.now n.firsts.items) }
        ensures unused { IfOk result (λ n. n.used ≡ none_of (length classes.now)) }
    {
        let firsts = first_classes(alloc, classes)?;
        let used = Numbering::new(alloc, classes.len())?;
        Ok(Names { firsts, used })
    }

    /// The number of a name, once a name that is equal to it has been used.
    pub fn number(&self, name: u32) -> Option<u32>
        requires within { name < length self.now.firsts.items }
        requires first { get_or self.now.firsts.items name 0 < self.now.used.total }
        ensures { result ≡ place_of (get_or self.now.firsts.items name 0) self.now.used.order }
    {
        self.used.number(self.firsts[name as usize])
    }

    /// Gives a name the next number.
    pub fn give(&mut self, name: u32) -> Result<(), AllocError>
        requires within { name < length self.old.firsts.items }
        requires first { get_or self.old.firsts.items name 0 < self.old.used.total }
        requires new { place_of (get_or self.old.firsts.items name 0) self.old.used.order ≡ None }
        requires room { length self.old.used.order < 2 ^ 32 }
        ensures firsts { self.new.firsts ≡ self.old.firsts }
        ensures given { OnOk result (self.new.used ≡ record self.old.used {
          order = self.old.used.order ++ get_or self.old.firsts.items name 0 ∷ [];
        }) }
    {
        self.used.give(self.firsts[name as usize])
    }
}

/// For each type the place of the first type that is equal to it.
fn first_types(alloc: Global, types: &[Chars]) -> Result<Vec<usize>, AllocError>
    ensures { IfOk result (λ firsts. AreFirsts [] types.now firsts.items) }
{
    let mut keys = Keys::new(alloc);
    for text in types {
        let mut key = Vec::new(alloc);
        key.extend_from_slice(text.as_str().as_bytes())?;
        keys.add(key)?;
    }
    Ok(keys.firsts)
}

/// For each class the place of the first class that is equal to it.
fn first_classes(alloc: Global, classes: &[Class]) -> Result<Vec<usize>, AllocError>
    ensures { IfOk result (λ firsts. AreFirsts no_class classes.now firsts.items) }
{
    let mut keys = Keys::new(alloc);
    for class in classes {
        let key = class_key(alloc, class)?;
        are_bytes(key.as_slice());
        keys.add(key)?;
    }
    Ok(keys.firsts)
}

/// The texts of a class, in the writer's forms: other bytes than those of any other class.
fn class_key(alloc: Global, class: &Class) -> Result<Vec<u8>, AllocError>
    ensures { IfOk result (λ key. TextsSpelling hessian_forms (words_of class.now) key.items) }
{
    let mut key = Vec::new(alloc);
    write_text(alloc, &mut key, class.name.as_str())?;
    write_texts(alloc, &mut key, class.fields.as_slice())?;
    Ok(key)
}

/// Each item of a slice of bytes is one: the clause says so, and the call does nothing.
pub(crate) fn are_bytes(_bytes: &[u8])
    ensures { AreBytes _bytes.now }
{}
