//! Copies of texts, byte lists and classes.

ghost use Rattle.std.specs.Prelude.{◌≡◌, IfOk};

use crate::node::Class;
use crate::text::{Chars, Octets, Texts};
use std::alloc::{AllocError, Global};

/// A copy of a text.
pub fn copy_text(alloc: Global, text: &Chars) -> Result<Chars, AllocError>
    ensures { IfOk result (λ t. t ≡ text.now) }
{
    Ok(Chars::from(String::from_str(alloc, text.as_str())?))
}

/// A copy of a list of bytes.
pub fn copy_bytes(alloc: Global, bytes: &Octets) -> Result<Octets, AllocError>
    ensures { IfOk result (λ bs. bs ≡ bytes.now) }
{
    let mut copy = Vec::new(alloc);
    copy.extend_from_slice(bytes.as_slice())?;
    Ok(Octets::from(copy))
}

/// A copy of a list of texts.
fn copy_texts(alloc: Global, texts: &[Chars]) -> Result<Texts, AllocError>
    ensures { IfOk result (λ ts. ts ≡ texts.now) }
{
    let mut copy = Vec::new(alloc);
    for text in texts {
        copy.push(copy_text(alloc, text)?)?;
    }
    Ok(Texts::from(copy))
}

/// A copy of a class.
pub fn copy_class(alloc: Global, class: &Class) -> Result<Class, AllocError>
    ensures { IfOk result (λ c. c ≡ class.now) }
{
    let name = copy_text(alloc, &class.name)?;
    let fields = copy_texts(alloc, class.fields.as_slice())?;
    Ok(Class { name, fields })
}
