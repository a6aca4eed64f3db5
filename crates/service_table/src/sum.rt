//! The sum of ints and longs.

ghost use Rattle.std.specs.Prelude.{◌≡◌, ◌≤ℤ◌, get_or};
ghost use Rattle.hessian_graph.specs.declared.value.Value.TheVariants.{Null};
ghost use Rattle.service_table.specs.Replies.{GREATEST, LEAST, number_of, total};

use hessian_graph::Value;

/// What a value counts in a sum.
fn number_of(value: &Value) -> i64
    ensures { result ≡ number_of value.now }
{
    match value {
        Value::Int(number) => i64::from(*number),
        Value::Long(number) => *number,
        _ => 0,
    }
}

/// The same, with room for many.
fn wide(value: &Value) -> i128
    ensures is { result ≡ number_of value.now }
    ensures low { LEAST ≤ℤ result }
    ensures high { result ≤ℤ GREATEST }
{
    i128::from(number_of(value))
}

/// The sum of the ints and longs among values. It has room: a slice has fewer than 2^63 of them.
pub(crate) fn total(values: &[Value]) -> i128
    ensures { result ≡ total values.now }
{
    let mut sum = 0;
    for value in values {
        sum += wide(value);
    }
    sum
}

/// What the first argument counts, or 0 where there is none.
pub(crate) fn first_number(args: &[Value]) -> i128
    ensures { result ≡ number_of (get_or args.now 0 Null) }
{
    match args {
        [first, ..] => wide(first),
        [] => 0,
    }
}
