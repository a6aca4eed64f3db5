//! The types and classes that came.

ghost use Rattle.std.specs.Prelude.{◌≡◌, ◌<◌, ◌^◌, [], length, OnOk};
ghost use Rattle.hessian_reader.specs.Names.{and_type, and_class, no_names};
ghost use Rattle.hessian_reader.specs.Views.{fields_of};

use crate::place::ClassSoFar;
use hessian_graph::{Chars, Class, Classes, Texts};
use std::alloc::{AllocError, Global};
use std::marker::Model;

/// The types and the classes of a reading, in the order of their numbers.
#[derive(Drop)]
pub struct NameTables {
    types: Vec<Chars>,
    classes: Vec<Class>,
}

impl Model for NameTables {
    ghost use Rattle.hessian_reader.specs.Names.{Names};

    ghost Value = { Names };

    ghost view = { λ a. record { types = a.types.items; classes = a.classes.items } };
}

impl NameTables {
    /// No names.
    pub fn new(alloc: Global) -> NameTables
        ensures { result ≡ no_names }
    {
        NameTables {
            types: Vec::new(alloc),
            classes: Vec::new(alloc),
        }
    }

    /// How many types came.
    pub fn types(&self) -> usize
        ensures { result ≡ length self.now.types }
    {
        self.types.len()
    }

    /// How many fields the class of this number has.
    pub fn fields_of(&self, number: u32) -> Option<usize>
        ensures { result ≡ fields_of self.now number }
    {
        let class = self.classes.get(number as usize)?;
        Some(class.fields.as_slice().len())
    }

    /// Adds a type.
    pub fn add_type(&mut self, text: Chars) -> Result<(), AllocError>
        ensures { OnOk result (self.new ≡ and_type text self.old) }
    {
        self.types.push(text)?;
        Ok(())
    }

    /// Adds a class.
    pub fn add_class(&mut self, class: ClassSoFar) -> Result<(), AllocError>
        ensures { OnOk result (self.new ≡ and_class class self.old) }
    {
        self.classes.push(class.into_class())?;
        Ok(())
    }

    /// The tables of a graph.
    pub fn into_tables(self) -> (Texts, Classes)
        ensures types { result.0 ≡ self.types }
        ensures classes { result.1 ≡ self.classes }
    {
        (Texts::from(self.types), Classes::from(self.classes))
    }
}
