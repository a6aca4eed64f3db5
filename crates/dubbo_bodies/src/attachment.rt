//! Attachments: texts that go beside the arguments of a request.

ghost use Rattle.std.specs.Prelude.{◌≡◌};

use hessian_graph::Chars;
use std::marker::Model;

/// A named text beside the arguments of a request.
#[derive(Drop)]
pub struct Attachment {
    /// The name.
    pub name: Chars,
    /// The text of this name.
    pub value: Chars,
}

/// A list of attachments in written order, repeats included.
#[derive(Drop)]
pub struct Attachments {
    inner: Vec<Attachment>,
}

impl Model for Attachments {
    ghost use Rattle.std.specs.Prelude.{List};
    ghost use Rattle.dubbo_bodies.specs.declared.attachment.Attachment.{Attachment as Entry};

    ghost Value = { List Entry };

    ghost view = { λ a. a.inner.items };
}

impl Attachments {
    /// The attachments of this vector.
    pub fn from(inner: Vec<Attachment>) -> Attachments
        ensures { result ≡ inner.items }
    {
        Attachments { inner }
    }

    /// The attachments as a slice.
    pub fn as_slice(&self) -> &[Attachment]
        ensures { result.now ≡ self.now }
    {
        self.inner.as_slice()
    }

    /// The vector that was handed in.
    pub fn into_inner(self) -> Vec<Attachment>
        ensures { result.items ≡ self }
    {
        self.inner
    }
}
