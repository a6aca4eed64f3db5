//! The first argument, and copies of values.

ghost use Rattle.std.specs.Prelude.{◌≡◌, IfOk, get_or, reverse};
ghost use Rattle.hessian_graph.specs.declared.value.Value.TheVariants.{Null};

use hessian_graph::{Chars, Octets, OutOfMemory, Value};
use std::alloc::Global;

/// A copy of the first argument, or null where there is none.
pub(crate) fn first_of(alloc: Global, args: &[Value]) -> Result<Value, OutOfMemory>
    ensures { IfOk result (λ v. v ≡ get_or args.now 0 Null) }
{
    match args {
        [first, ..] => copy_value(alloc, first),
        [] => Ok(Value::Null),
    }
}

/// A copy of a value. The node that it names, if any, is the same.
pub(crate) fn copy_value(alloc: Global, value: &Value) -> Result<Value, OutOfMemory>
    ensures { IfOk result (λ v. v ≡ value.now) }
{
    let copy = match value {
        Value::Null => Value::Null,
        Value::Bool(truth) => Value::Bool(*truth),
        Value::Int(number) => Value::Int(*number),
        Value::Long(number) => Value::Long(*number),
        Value::Date(moment) => Value::Date(*moment),
        Value::Text(text) => Value::Text(copy_text(alloc, text.as_str())?),
        Value::Bytes(bytes) => Value::Bytes(copy_bytes(alloc, bytes.as_slice())?),
        Value::Node(number) => Value::Node(*number),
    };
    Ok(copy)
}

/// A copy of a text.
pub(crate) fn copy_text(alloc: Global, text: &str) -> Result<Chars, OutOfMemory>
    ensures { IfOk result (λ copy. copy ≡ text.now) }
{
    Ok(Chars::from(String::from_str(alloc, text)?))
}

/// A copy of a list of bytes.
fn copy_bytes(alloc: Global, bytes: &[u8]) -> Result<Octets, OutOfMemory>
    ensures { IfOk result (λ copy. copy ≡ bytes.now) }
{
    let mut copy = Vec::new(alloc);
    copy.extend_from_slice(bytes)?;
    Ok(Octets::from(copy))
}

/// Copies of values, from the last to the first.
pub(crate) fn copy_reversed(alloc: Global, values: &[Value]) -> Result<Vec<Value>, OutOfMemory>
    ensures { IfOk result (λ copies. copies.items ≡ reverse values.now) }
{
    let mut copies = copy_values(alloc, values)?;
    copies.reverse();
    Ok(copies)
}

/// Copies of values, in order.
fn copy_values(alloc: Global, values: &[Value]) -> Result<Vec<Value>, OutOfMemory>
    ensures { IfOk result (λ copies. copies.items ≡ values.now) }
{
    let mut copies = Vec::with_capacity(alloc, values.len())?;
    for value in values {
        copies.push(copy_value(alloc, value)?)?;
    }
    Ok(copies)
}
