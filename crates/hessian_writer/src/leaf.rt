//! Values that are no nodes, and texts in a row.

ghost use Rattle.std.specs.Prelude.{◌<◌, ◌^◌, length, IfOk, OnOk};
ghost use Rattle.hessian_writer.specs.Leaves.{written_bytes};
ghost use Rattle.hessian_writer.specs.Appending.{Appends, WritesPlain, AppendsTexts, AppendsClass};

use hessian_graph::{Chars, Class, OutOfMemory, Value};
use hessian_scalars::{Scalar, write_int, write_scalar};
use hessian_text::{write_binary, write_text};
use std::alloc::Global;

/// Writes a value that is no node, or answers the number of the node.
pub(crate) fn write_plain(
    alloc: Global,
    out: &mut Vec<u8>,
    value: &Value,
) -> Result<Option<u32>, OutOfMemory>
    ensures { IfOk result (WritesPlain value.now out.old.items out.new.items) }
{
    match *value {
        Value::Null => {
            write_scalar(alloc, out, Scalar::Null)?;
            Ok(None)
        }
        Value::Bool(truth) => {
            write_scalar(alloc, out, Scalar::Bool(truth))?;
            Ok(None)
        }
        Value::Int(number) => {
            write_int(alloc, out, number)?;
            Ok(None)
        }
        Value::Long(number) => {
            write_scalar(alloc, out, Scalar::Long(number))?;
            Ok(None)
        }
        Value::Date(millis) => {
            write_scalar(alloc, out, Scalar::Date(millis))?;
            Ok(None)
        }
        Value::Text(ref text) => {
            write_text(alloc, out, text.as_str())?;
            Ok(None)
        }
        Value::Bytes(ref contents) => {
            write_contents(alloc, out, contents.as_slice())?;
            Ok(None)
        }
        Value::Node(number) => Ok(Some(number)),
    }
}

/// Writes a list of bytes.
fn write_contents(alloc: Global, out: &mut Vec<u8>, contents: &[u8]) -> Result<(), OutOfMemory>
    ensures { OnOk result (Appends (written_bytes contents.now) out.old.items out.new.items) }
{
    write_binary(alloc, out, contents)?;
    Ok(())
}

/// Writes texts one after another.
pub(crate) fn write_texts(
    alloc: Global,
    out: &mut Vec<u8>,
    texts: &[Chars],
) -> Result<(), OutOfMemory>
    ensures { OnOk result (AppendsTexts texts.now out.old.items out.new.items) }
{
    for text in texts {
        write_text(alloc, out, text.as_str())?;
    }
    Ok(())
}

/// Writes the name of a class, the number of its fields and their names.
pub(crate) fn write_class(
    alloc: Global,
    out: &mut Vec<u8>,
    class: &Class,
) -> Result<(), OutOfMemory>
    requires { length class.now.fields < 2 ^ 31 }
    ensures { OnOk result (AppendsClass class.now out.old.items out.new.items) }
{
    let fields = class.fields.as_slice();
    write_text(alloc, out, class.name.as_str())?;
    write_int(alloc, out, fields.len() as i32)?;
    write_texts(alloc, out, fields)?;
    Ok(())
}
