//! What stands before the values of a node: its code, and its type, length or class where it has one.

ghost use Rattle.std.specs.Prelude.{◌≡◌, ℕ, ◌+◌, ◌<◌, ◌≤◌, ◌^◌, [], None, Some, length, get_or, OnOk};
ghost use Rattle.hessian_graph.specs.Shape.{no_class, ListKind, ObjectKind};
ghost use Rattle.hessian_graph.specs.Reading.{Tables, one_more};
ghost use Rattle.hessian_graph.specs.Forms.{IsEarliest};
ghost use Rattle.hessian_graph.specs.declared.node.Class.{Class};
ghost use Rattle.hessian_writer.specs.Sharing.{NamesFit, listed};
ghost use Rattle.hessian_writer.specs.Appending.{AppendsHead, AppendsType};

use crate::leaf::write_class;
use crate::names::Names;
use hessian_graph::{Chars, Class, OutOfMemory};
use hessian_scalars::write_int;
use hessian_text::write_text;
use std::alloc::Global;

/// The most items of a list whose code states their number.
const SHORT_LENGTH: usize = 7;

/// The greatest number of a class that stands in the code of an object.
const SHORT_CLASS: u32 = 15;

/// Writes a type: its number where an equal one has been written, else its text.
pub(crate) fn write_type(
    alloc: Global,
    out: &mut Vec<u8>,
    types: &[Chars],
    names: &mut Names,
    number: u32,
) -> Result<(), OutOfMemory>
    requires fit { NamesFit [] types.now names.old.firsts.items names.old.used }
    requires within { number < length types.now }
    requires room { length names.old.used.order < 2 ^ 31 }
    ensures fit { OnOk result (NamesFit [] types.now names.new.firsts.items names.new.used) }
    ensures few { OnOk result (length names.new.used.order ≤ length names.old.used.order + 1) }
    ensures written { OnOk result ((t : Tables) → t.types ≡ listed [] types.now names.old.used.order
        → AppendsType (get_or types.now number []) t (record t { types = listed [] types.now names.new.used.order })
        out.old.items out.new.items) }
{
    match names.number(number) {
        Some(place) => {
            write_int(alloc, out, place as i32)?;
            Ok(())
        }
        None => {
            names.give(number)?;
            write_text(alloc, out, types[number as usize].as_str())?;
            Ok(())
        }
    }
}

/// Writes the head of a list without a type.
pub(crate) fn write_list(alloc: Global, out: &mut Vec<u8>, count: usize) -> Result<(), OutOfMemory>
    requires { count < 2 ^ 31 }
    ensures { OnOk result ((t : Tables) → AppendsHead (ListKind None) count t (one_more t) out.old.items out.new.items) }
{
    if count <= SHORT_LENGTH {
        out.push(0x78 + count as u8)?;
        return Ok(());
    }
    out.push(0x58)?;
    write_int(alloc, out, count as i32)?;
    Ok(())
}

/// Writes the head of a list of the type of this number.
pub(crate) fn write_typed_list(
    alloc: Global,
    out: &mut Vec<u8>,
    types: &[Chars],
    names: &mut Names,
    number: u32,
    count: usize,
) -> Result<(), OutOfMemory>
    requires fit { NamesFit [] types.now names.old.firsts.items names.old.used }
    requires within { number < length types.now }
    requires room { length names.old.used.order < 2 ^ 31 }
    requires short { count < 2 ^ 31 }
    ensures fit { OnOk result (NamesFit [] types.now names.new.firsts.items names.new.used) }
    ensures few { OnOk result (length names.new.used.order ≤ length names.old.used.order + 1) }
    ensures written { OnOk result ((t : Tables) → t.types ≡ listed [] types.now names.old.used.order
        → AppendsHead (ListKind (Some (get_or types.now number []))) count
        t (one_more (record t { types = listed [] types.now names.new.used.order })) out.old.items out.new.items) }
{
    if count <= SHORT_LENGTH {
        out.push(0x70 + count as u8)?;
        write_type(alloc, out, types, names, number)?;
        return Ok(());
    }
    out.push(b'V')?;
    write_type(alloc, out, types, names, number)?;
    write_int(alloc, out, count as i32)?;
    Ok(())
}

/// Writes the head of an object whose class has this number.
pub(crate) fn write_known_object(
    alloc: Global,
    out: &mut Vec<u8>,
    place: u32,
) -> Result<(), OutOfMemory>
    requires { place < 2 ^ 31 }
    ensures { OnOk result ((t : Tables) → (class : Class) → IsEarliest no_class t.classes class place
        → AppendsHead (ObjectKind class) (length class.fields) t (one_more t) out.old.items out.new.items) }
{
    if place <= SHORT_CLASS {
        out.push(0x60 + place as u8)?;
        return Ok(());
    }
    out.push(b'O')?;
    write_int(alloc, out, place as i32)?;
    Ok(())
}

/// Writes the head of an object, and the definition of its class first where no equal one has been defined.
pub(crate) fn write_object(
    alloc: Global,
    out: &mut Vec<u8>,
    classes: &[Class],
    names: &mut Names,
    class: u32,
) -> Result<(), OutOfMemory>
    requires fit { NamesFit no_class classes.now names.old.firsts.items names.old.used }
    requires within { class < length classes.now }
    requires room { length names.old.used.order < 2 ^ 31 }
    requires short { length (get_or classes.now class no_class).fields < 2 ^ 31 }
    ensures fit { OnOk result (NamesFit no_class classes.now names.new.firsts.items names.new.used) }
    ensures few { OnOk result (length names.new.used.order ≤ length names.old.used.order + 1) }
    ensures written { OnOk result ((t : Tables) → t.classes ≡ listed no_class classes.now names.old.used.order
        → AppendsHead (ObjectKind (get_or classes.now class no_class)) (length (get_or classes.now class no_class).fields)
        t (one_more (record t { classes = listed no_class classes.now names.new.used.order })) out.old.items out.new.items) }
{
    match names.number(class) {
        Some(place) => {
            write_known_object(alloc, out, place)?;
            Ok(())
        }
        None => {
            let place = names.used.count() as u32;
            out.push(b'C')?;
            write_class(alloc, out, &classes[class as usize])?;
            names.give(class)?;
            write_known_object(alloc, out, place)?;
            Ok(())
        }
    }
}
