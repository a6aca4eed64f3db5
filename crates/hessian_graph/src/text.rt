//! Texts and byte lists, which contracts see as lists of bytes.

ghost use Rattle.std.specs.Prelude.{◌≡◌};
ghost use Rattle.std.specs.String.{string_bytes};

use std::marker::Model;

/// A text. Contracts see its bytes in UTF-8.
#[derive(Drop)]
pub struct Chars {
    inner: String,
}

impl Model for Chars {
    ghost use Rattle.std.specs.Prelude.{List, ℕ};
    ghost use Rattle.std.specs.String.{string_bytes};

    ghost Value = { List ℕ };

    ghost view = { λ a. string_bytes a.inner };
}

impl Chars {
    /// The text that this string holds.
    pub fn from(inner: String) -> Chars
        ensures { result ≡ string_bytes inner }
    {
        Chars { inner }
    }

    /// The text as a string slice.
    pub fn as_str(&self) -> &str
        ensures { result.now ≡ self.now }
    {
        self.inner.as_str()
    }

    /// The string that was handed in.
    pub fn into_inner(self) -> String
        ensures { string_bytes result ≡ self }
    {
        self.inner
    }
}

/// A list of bytes.
#[derive(Drop)]
pub struct Octets {
    inner: Vec<u8>,
}

impl Model for Octets {
    ghost use Rattle.std.specs.Prelude.{List, ℕ};

    ghost Value = { List ℕ };

    ghost view = { λ a. a.inner.items };
}

impl Octets {
    /// The bytes of this vector.
    pub fn from(inner: Vec<u8>) -> Octets
        ensures { result ≡ inner.items }
    {
        Octets { inner }
    }

    /// The bytes as a slice.
    pub fn as_slice(&self) -> &[u8]
        ensures { result.now ≡ self.now }
    {
        self.inner.as_slice()
    }

    /// The vector that was handed in.
    pub fn into_inner(self) -> Vec<u8>
        ensures { result.items ≡ self }
    {
        self.inner
    }
}

/// A list of texts, as a class's field names or a table of types.
#[derive(Drop)]
pub struct Texts {
    inner: Vec<Chars>,
}

impl Model for Texts {
    ghost use Rattle.std.specs.Prelude.{List, ℕ};

    ghost Value = { List (List ℕ) };

    ghost view = { λ a. a.inner.items };
}

impl Texts {
    /// The texts of this vector.
    pub fn from(inner: Vec<Chars>) -> Texts
        ensures { result ≡ inner.items }
    {
        Texts { inner }
    }

    /// The texts as a slice.
    pub fn as_slice(&self) -> &[Chars]
        ensures { result.now ≡ self.now }
    {
        self.inner.as_slice()
    }

    /// The vector that was handed in.
    pub fn into_inner(self) -> Vec<Chars>
        ensures { result.items ≡ self }
    {
        self.inner
    }
}
