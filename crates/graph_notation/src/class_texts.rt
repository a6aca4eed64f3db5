//! What stands before the entries of a class's objects and before their values, prepared once for all of them.

ghost use Rattle.std.specs.Prelude.{◌<◌, ◌∷◌, [], length, get_or, IfOk, OnOk};
ghost use Rattle.hessian_graph.specs.Shape.{ObjectKind};
ghost use Rattle.graph_notation.specs.declared.element.Element.TheVariants.{Sign, Words};
ghost use Rattle.graph_notation.specs.Pressing.{Prints, head_of, before};
ghost use Rattle.graph_notation.specs.Preparing.{AreTexts, AreFieldTexts, HaveTexts};

use crate::element::Mark;
use crate::entries::{write_comma, write_mark, write_words};
use hessian_graph::{Class, Octets};
use std::alloc::{AllocError, Global};

/// The texts of a class that are the same in each of its objects.
#[derive(Drop)]
pub struct ClassTexts {
    /// What stands before the entries: `!"Name"(`.
    pub head: Octets,
    /// What stands before the value of each field: `"field":`, from the second on behind a comma.
    pub fields: Vec<Octets>,
}

/// The texts of each class.
pub fn texts_of(alloc: Global, classes: &[Class]) -> Result<Vec<ClassTexts>, AllocError>
    ensures { IfOk result (λ texts. HaveTexts classes.now texts.items) }
{
    let mut texts = Vec::with_capacity(alloc, classes.len())?;
    for at in 0..classes.len() {
        texts.push(class_texts(alloc, &classes[at])?)?;
    }
    Ok(texts)
}

/// The texts of a class.
fn class_texts(alloc: Global, class: &Class) -> Result<ClassTexts, AllocError>
    ensures { IfOk result (AreTexts class.now) }
{
    let head = head_text(alloc, class)?;
    let fields = field_texts(alloc, class)?;
    Ok(ClassTexts { head, fields })
}

/// What stands before the entries of a class's objects.
fn head_text(alloc: Global, class: &Class) -> Result<Octets, AllocError>
    ensures { IfOk result (Prints [] (head_of (ObjectKind class.now))) }
{
    let mut text = Vec::new(alloc);
    write_class(&mut text, class)?;
    Ok(Octets::from(text))
}

/// What stands before the value of each field of a class.
fn field_texts(alloc: Global, class: &Class) -> Result<Vec<Octets>, AllocError>
    ensures { IfOk result (λ texts. AreFieldTexts class.now (length class.now.fields) texts.items) }
{
    let count = class.fields.as_slice().len();
    let mut texts = Vec::with_capacity(alloc, count)?;
    for at in 0..count {
        texts.push(field_text(alloc, class, at)?)?;
    }
    Ok(texts)
}

/// What stands before the value of a field, behind a comma where the field isn't the first.
fn field_text(alloc: Global, class: &Class, at: usize) -> Result<Octets, AllocError>
    requires { at < length class.now.fields }
    ensures { IfOk result (Prints [] (before (ObjectKind class.now) at)) }
{
    let mut text = Vec::new(alloc);
    write_comma(&mut text, at)?;
    write_field(&mut text, class, at)?;
    Ok(Octets::from(text))
}

/// Appends what stands before the entries of a class's objects.
fn write_class(out: &mut Vec<u8>, class: &Class) -> Result<(), AllocError>
    ensures { OnOk result (Prints out.old.items (Sign Mark.Named ∷ Words class.now.name ∷ Sign Mark.BeginFields ∷ []) out.new.items) }
{
    write_mark(out, Mark::Named)?;
    write_words(out, &class.name)?;
    write_mark(out, Mark::BeginFields)?;
    Ok(())
}

/// Appends the name of a field and a colon.
fn write_field(out: &mut Vec<u8>, class: &Class, at: usize) -> Result<(), AllocError>
    requires { at < length class.now.fields }
    ensures { OnOk result (Prints out.old.items (Words (get_or class.now.fields at []) ∷ Sign Mark.Colon ∷ []) out.new.items) }
{
    write_words(out, &class.fields.as_slice()[at])?;
    write_mark(out, Mark::Colon)?;
    Ok(())
}
