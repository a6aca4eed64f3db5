//! What the next element stands for.

ghost use Rattle.std.specs.Prelude.{◌≡◌, ◌++◌, ◌∷◌, [], length, OnOk};

use crate::element::{Form, Want};
use hessian_graph::{Chars, Class, Texts};
use std::alloc::{AllocError, Global};
use std::marker::Model;

/// A class whose fields come one by one.
#[derive(Drop)]
pub struct ClassSoFar {
    name: Chars,
    fields: Vec<Chars>,
}

impl Model for ClassSoFar {
    ghost use Rattle.hessian_graph.specs.declared.node.Class.{Class as Names};

    ghost Value = { Names };

    ghost view = { λ a. record { name = a.name; fields = a.fields.items } };
}

impl ClassSoFar {
    /// A class without fields.
    pub fn new(alloc: Global, name: Chars) -> ClassSoFar
        ensures { result ≡ record { name = name; fields = [] } }
    {
        ClassSoFar {
            name,
            fields: Vec::new(alloc),
        }
    }

    /// Adds a field.
    pub fn push(&mut self, field: Chars) -> Result<(), AllocError>
        ensures { OnOk result (self.new ≡ record (self.old) { fields = self.old.fields ++ field ∷ [] }) }
    {
        self.fields.push(field)?;
        Ok(())
    }

    /// The class as it stands.
    pub fn into_class(self) -> Class
        ensures { result ≡ self }
    {
        Class {
            name: self.name,
            fields: Texts::from(self.fields),
        }
    }
}

/// What the next element stands for.
#[derive(Drop)]
pub enum Place {
    /// A value, or the `Z` of a list or map.
    AtValue,
    /// A value behind the definition of a class.
    AtDefined,
    /// The number of a reference.
    AtReference,
    /// The type of a node.
    AtType(Form),
    /// The length of a list, whose type has this number.
    AtLength(Option<u32>),
    /// The class number of an object.
    AtClass,
    /// The name of a class.
    AtName,
    /// The number of fields of the class of this name.
    AtCount(Chars),
    /// The name of a field of this class, of which so many are to come.
    AtField(ClassSoFar, usize),
}
