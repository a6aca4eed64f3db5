//! Lists of values and of names that grow, which contracts see as lists.

ghost use Rattle.std.specs.Prelude.{◌≡◌, ◌∷◌, [], ◌++◌, OnOk};

use hessian_graph::{Chars, Items, Texts, Value};
use std::alloc::{AllocError, Global};
use std::marker::Model;

/// Values that are read one after another.
#[derive(Drop)]
pub struct Values {
    inner: Vec<Value>,
}

impl Model for Values {
    ghost use Rattle.std.specs.Prelude.{List};
    ghost use Rattle.hessian_graph.specs.declared.value.Value.{Value as Item};

    ghost Value = { List Item };

    ghost view = { λ a. a.inner.items };
}

impl Values {
    /// No values.
    pub fn new(alloc: Global) -> Values
        ensures { result ≡ [] }
    {
        Values {
            inner: Vec::new(alloc),
        }
    }

    /// One value more.
    pub fn add(&mut self, value: Value) -> Result<(), AllocError>
        ensures { OnOk result (self.new ≡ self.old ++ value ∷ []) }
    {
        self.inner.push(value)?;
        Ok(())
    }

    /// The values as the values of a node.
    pub fn into_items(self) -> Items
        ensures { result ≡ self }
    {
        Items::from(self.inner)
    }

    /// The values as a vector.
    pub fn into_inner(self) -> Vec<Value>
        ensures { result.items ≡ self }
    {
        self.inner
    }
}

/// Names that are read one after another.
#[derive(Drop)]
pub struct Names {
    inner: Vec<Chars>,
}

impl Model for Names {
    ghost use Rattle.std.specs.Prelude.{List, ℕ};

    ghost Value = { List (List ℕ) };

    ghost view = { λ a. a.inner.items };
}

impl Names {
    /// No names.
    pub fn new(alloc: Global) -> Names
        ensures { result ≡ [] }
    {
        Names {
            inner: Vec::new(alloc),
        }
    }

    /// One name more.
    pub fn add(&mut self, name: Chars) -> Result<(), AllocError>
        ensures { OnOk result (self.new ≡ self.old ++ name ∷ []) }
    {
        self.inner.push(name)?;
        Ok(())
    }

    /// The names as texts.
    pub fn into_texts(self) -> Texts
        ensures { result ≡ self }
    {
        Texts::from(self.inner)
    }
}
