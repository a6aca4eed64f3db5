//! The bytes of a header, as far as they came.

ghost use Rattle.std.specs.Prelude.{◌≡◌, ◌≤◌, ◌-◌, List, ℕ, [], ◌++◌, length, take, min};

use std::marker::Model;

/// At most sixteen bytes.
#[derive(Drop)]
pub struct Head {
    bytes: [u8; 16],
    len: usize,
}

impl Model for Head {
    ghost use Rattle.std.specs.Prelude.{◌≤◌, List, ℕ, take};

    ghost Value = { List ℕ };

    ghost view = { λ h. take h.len h.bytes };

    ghost invariant = { λ h. h.len ≤ 16 };
}

impl Head {
    /// No bytes yet.
    pub fn new() -> Head
        ensures { result ≡ [] }
    {
        Head {
            bytes: [0; 16],
            len: 0,
        }
    }

    /// The same bytes once more.
    pub fn copied(&self) -> Head
        ensures { result ≡ self.now }
    {
        Head {
            bytes: self.bytes,
            len: self.len,
        }
    }

    /// How many bytes came.
    pub fn len(&self) -> usize
        ensures count { result ≡ length self.now }
        ensures most { result ≤ 16 }
    {
        self.len
    }

    /// Takes what it lacks from the front of `piece`, and answers how many bytes these are.
    pub fn take_from(&mut self, piece: &[u8]) -> usize
        ensures count { result ≡ min (16 - length self.old) (length piece.now) }
        ensures bytes { self.new ≡ self.old ++ take result piece.now }
    {
        let n = piece.len().min(16 - self.len);
        self.bytes[self.len..self.len + n].copy_from_slice(&piece[..n]);
        self.len += n;
        n
    }

    /// All sixteen bytes.
    pub fn whole(&self) -> &[u8; 16]
        requires { length self.now ≡ 16 }
        ensures { result.now ≡ self.now }
    {
        &self.bytes
    }
}
