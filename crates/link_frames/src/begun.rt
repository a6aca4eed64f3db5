//! A frame whose header came, and its body as far as it came.

ghost use Rattle.std.specs.Prelude.{◌≡◌, ◌≤◌, ◌+◌, ◌-◌, ◌++◌, List, ℕ, [], length, take, min, vec_len, vec_capacity};
ghost use Rattle.std.specs.Option.{ForSome};
ghost use Rattle.dubbo_header.specs.Header.{IsHeader};

use crate::body::Body;
use crate::next::Next;
use dubbo_header::Header;
use std::alloc::Global;

/// A frame that has begun.
///
/// Its body is kept in room for all of it, or not at all where there was no memory for it.
#[derive(Drop)]
pub struct Begun {
    header: Header,
    left: u32,
    kept: Option<Vec<u8>>,
    ghost whole: { IsHeader header },
    ghost within: { left ≤ header.length },
    ghost fits: { ForSome kept (λ body.
        (vec_len body + left ≡ header.length) × (header.length ≤ vec_capacity body)) },
}

impl Begun {
    ghost use Rattle.link_frames.specs.Begun.{header_of, left_of, Took, Finishes, KeepsNone};

    /// A frame with this header, of whose body nothing came yet.
    pub fn new(alloc: Global, header: Header) -> Begun
        requires { IsHeader header }
        ensures header { header_of result ≡ header }
        ensures none { Took result [] }
    {
        let kept = Vec::with_capacity(alloc, header.length as usize).ok();
        Begun {
            header,
            left: header.length,
            kept,
        }
    }

    /// A frame with this header, whose body is fed as it comes.
    pub fn lent(header: Header) -> Begun
        requires { IsHeader header }
        ensures header { header_of result ≡ header }
        ensures left { left_of result ≡ header.length }
        ensures kept { KeepsNone result }
    {
        Begun {
            header,
            left: header.length,
            kept: None,
        }
    }

    /// The same frame, of whose body nothing is kept.
    pub fn forget(self) -> Begun
        ensures header { header_of result ≡ header_of self }
        ensures left { left_of result ≡ left_of self }
        ensures kept { KeepsNone result }
    {
        let Begun {
            header,
            left,
            kept: _,
        } = self;
        Begun {
            header,
            left,
            kept: None,
        }
    }

    /// Lets what it lacks of so many bytes pass by, and answers how many these are.
    pub fn pass(&mut self, most: usize) -> usize
        requires { KeepsNone self.old }
        ensures count { result ≡ min (left_of self.old) most }
        ensures header { header_of self.new ≡ header_of self.old }
        ensures left { left_of self.new + result ≡ left_of self.old }
        ensures kept { KeepsNone self.new }
    {
        let n = most.min(self.left as usize);
        self.left -= n as u32;
        n
    }

    /// Its header.
    pub fn header(&self) -> &Header
        ensures { result.now ≡ header_of self.now }
    {
        &self.header
    }

    /// How many bytes of the body are still to come.
    pub fn left(&self) -> usize
        ensures { result ≡ left_of self.now }
    {
        self.left as usize
    }

    /// Takes what it lacks from the front of `piece`, and answers how many bytes these are.
    pub fn take_from(&mut self, piece: &[u8]) -> usize
        ensures count { result ≡ min (left_of self.old) (length piece.now) }
        ensures header { header_of self.new ≡ header_of self.old }
        ensures left { left_of self.new + result ≡ left_of self.old }
        ensures took { (body : List ℕ) → Took self.old body → Took self.new (body ++ take result piece.now) }
    {
        let n = piece.len().min(self.left as usize);
        if let Some(bytes) = &mut self.kept {
            match bytes.extend_from_slice(&piece[..n]) {
                Ok(()) => {}
                Err(_) => unreachable!(),
            }
        }
        self.left -= n as u32;
        n
    }

    /// The frame, all of whose body came.
    pub fn finish(self) -> Next
        requires { left_of self ≡ 0 }
        ensures { (body : List ℕ) → Took self body → Finishes (header_of self) body result }
    {
        let Begun {
            header,
            left: _,
            kept,
        } = self;
        match kept {
            Some(bytes) => Next::Frame {
                header,
                body: Body::new(bytes),
            },
            None => Next::NoMemory { header },
        }
    }
}
