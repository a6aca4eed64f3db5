//! Values, and lists of values and of pairs.

ghost use Rattle.std.specs.Prelude.{◌≡◌, ◌++◌, ◌∷◌, [], length, nat_eq, is_ok, if◌then◌else◌};

use crate::text::{Chars, Octets};
use std::alloc::AllocError;
use std::marker::Model;

/// A value of a graph.
#[derive(Drop)]
pub enum Value {
    /// The value null.
    Null,
    /// A boolean.
    Bool(bool),
    /// A number of 32 bits.
    Int(i32),
    /// A number of 64 bits.
    Long(i64),
    /// A moment, in milliseconds since the first of January 1970 in UTC.
    Date(i64),
    /// A text.
    Text(Chars),
    /// A list of bytes.
    Bytes(Octets),
    /// The node of this number, which counts from 0.
    Node(u32),
}

/// A key of a map and its value.
#[derive(Drop)]
pub struct Pair {
    /// The key.
    pub key: Value,
    /// The key's value.
    pub value: Value,
}

/// Adds a value to a full list, where so many values are to come, this one among them, or 0 where that isn't known.
#[cold]
fn push_full(values: &mut Vec<Value>, value: Value, to_come: usize) -> Result<(), AllocError>
    ensures { values.new.items ≡ (if is_ok result then values.old.items ++ value ∷ [] else values.old.items) }
{
    let room = values.len().saturating_mul(3).min(to_come);
    // Where so much isn't had, the push takes less.
    let _ = values.reserve_exact(room);
    values.push(value)?;
    Ok(())
}

/// A list of values.
#[derive(Drop)]
pub struct Items {
    inner: Vec<Value>,
}

impl Model for Items {
    ghost use Rattle.std.specs.Prelude.{List};
    ghost use Rattle.hessian_graph.specs.declared.value.Value.{Value as Item};

    ghost Value = { List Item };

    ghost view = { λ a. a.inner.items };
}

impl Items {
    /// The values of this vector.
    pub fn from(inner: Vec<Value>) -> Items
        ensures { result ≡ inner.items }
    {
        Items { inner }
    }

    /// The values as a slice.
    pub fn as_slice(&self) -> &[Value]
        ensures { result.now ≡ self.now }
    {
        self.inner.as_slice()
    }

    /// Whether there are no values.
    #[inline(always)]
    pub fn is_empty(&self) -> bool
        ensures { result ≡ nat_eq (length self.now) 0 }
    {
        self.inner.is_empty()
    }

    /// Takes room for so many values more, and for no others.
    #[inline(always)]
    pub fn reserve_exact(&mut self, more: usize) -> Result<(), AllocError>
        ensures { self.new ≡ self.old }
    {
        self.inner.reserve_exact(more)
    }

    /// Adds a value behind the others. Where there is no memory the values stay as they were.
    ///
    /// So many values are to come, this one among them, or 0 where that isn't known. A full list takes room for three times
    /// as many as it has, but for no more than are to come; and for as many again where that isn't known.
    #[inline(always)]
    pub fn push(&mut self, value: Value, to_come: usize) -> Result<(), AllocError>
        ensures { self.new ≡ (if is_ok result then self.old ++ value ∷ [] else self.old) }
    {
        if self.inner.len() < self.inner.capacity() {
            self.inner.push_reserved(value);
        } else {
            push_full(&mut self.inner, value, to_come)?;
        }
        Ok(())
    }

    /// The vector that was handed in.
    pub fn into_inner(self) -> Vec<Value>
        ensures { result.items ≡ self }
    {
        self.inner
    }
}

/// The pairs of a map, in order, repeats included.
#[derive(Drop)]
pub struct Pairs {
    inner: Vec<Pair>,
}

impl Model for Pairs {
    ghost use Rattle.std.specs.Prelude.{List};
    ghost use Rattle.hessian_graph.specs.declared.value.Pair.{Pair as Entry};

    ghost Value = { List Entry };

    ghost view = { λ a. a.inner.items };
}

impl Pairs {
    /// The pairs of this vector.
    pub fn from(inner: Vec<Pair>) -> Pairs
        ensures { result ≡ inner.items }
    {
        Pairs { inner }
    }

    /// The pairs as a slice.
    pub fn as_slice(&self) -> &[Pair]
        ensures { result.now ≡ self.now }
    {
        self.inner.as_slice()
    }

    /// The vector that was handed in.
    pub fn into_inner(self) -> Vec<Pair>
        ensures { result.items ≡ self }
    {
        self.inner
    }
}
