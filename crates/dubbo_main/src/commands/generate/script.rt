//! The script that `gen` makes.
ghost use Rattle.std.specs.Prelude.{◌≡◌, ◌<◌, ◌++◌, [], IfOk, List, ℕ, decimal, get_or};
ghost use Rattle.dubbo_main.specs.GeneratedScript.{argument, call_line, call_lines, generated_script as the_script, kinds};

use itoa::Buffer;
use std::alloc::{AllocError, Global};

/// A service for each kind, in the order in which the kinds are listed.
const SERVICES: &str =
    "service demo.G - none Ljava/lang/Object; none\nservice demo.G - echo Ljava/lang/Object; echo\nservice demo.G - args Ljava/lang/Object; args\nservice demo.G - twice Ljava/lang/Object; twice\nservice demo.G - reverse Ljava/lang/Object; reverse\nservice demo.G - sum Ljava/lang/Object; sum\nservice demo.G - knot Ljava/lang/Object; knot\nservice demo.G - throw Ljava/lang/Object; throw\n";

/// The script of so many calls: eight services, one of each kind, and calls that go through them and through four
/// forms of arguments.
pub fn generated_script(alloc: Global, calls: u16) -> Result<Vec<u8>, AllocError>
    ensures { IfOk result (λ text. text.items ≡ the_script calls) }
{
    let mut text = Vec::new(alloc);
    text.extend_from_slice(SERVICES.as_bytes())?;
    for call in 0..calls {
        write_call(&mut text, call)?;
    }
    Ok(text)
}

/// Appends the line of the call of this number.
fn write_call(text: &mut Vec<u8>, call: u16) -> Result<(), AllocError>
    ensures { IfOk result (λ _. text.new.items ≡ text.old.items ++ call_line call) }
{
    let mut digits = Buffer::new();
    let (before, behind) = around(call / 8 % 4);
    text.extend_from_slice(b"call failover - - - demo.G - ")?;
    text.extend_from_slice(kind(call % 8).as_bytes())?;
    text.extend_from_slice(b" Ljava/lang/Object; ")?;
    text.extend_from_slice(before.as_bytes())?;
    text.extend_from_slice(digits.format(call).as_bytes())?;
    text.extend_from_slice(behind.as_bytes())?;
    text.push(b'\n')?;
    Ok(())
}

/// The word of the kind at this place.
fn kind(place: u16) -> &'static str
    requires { place < 8 }
    ensures { result.now ≡ get_or kinds place [] }
{
    match place {
        0 => "none",
        1 => "echo",
        2 => "args",
        3 => "twice",
        4 => "reverse",
        5 => "sum",
        6 => "knot",
        _ => "throw",
    }
}

/// What stands before the number of a call in its arguments of this form, and behind it.
fn around(form: u16) -> (&'static str, &'static str)
    ensures { (number : List ℕ) → argument form number ≡ result.0.now ++ number ++ result.1.now }
{
    match form {
        0 => ("", ""),
        1 => ("\"", "\""),
        2 => ("[[", "],#1]"),
        3.. => ("[", ",#0]"),
    }
}
