//! The lines of a transcript.

ghost use Rattle.std.specs.Prelude.{◌≡◌, ◌++◌, OnOk};
ghost use Rattle.dubbo_play.specs.FirstTranscript.{ok_line, summary};

use hessian_scalars::OutOfMemory;
use itoa::Buffer;

/// Appends the line of a call that was answered with an int.
pub fn print_ok(out: &mut Vec<u8>, number: u64, value: i32) -> Result<(), OutOfMemory>
    ensures { OnOk result (out.new.items ≡ out.old.items ++ ok_line number value) }
{
    let mut buffer = Buffer::new();
    out.extend_from_slice(buffer.format(number).as_bytes())?;
    out.extend_from_slice(b" ok ")?;
    out.extend_from_slice(buffer.format(value).as_bytes())?;
    out.extend_from_slice(b"\n")
}

/// Appends the last line: so many calls, each of which had one attempt.
pub fn print_summary(out: &mut Vec<u8>, calls: u64) -> Result<(), OutOfMemory>
    ensures { OnOk result (out.new.items ≡ out.old.items ++ summary calls) }
{
    let mut buffer = Buffer::new();
    let count = buffer.format(calls).as_bytes();
    out.extend_from_slice(b"calls ")?;
    out.extend_from_slice(count)?;
    out.extend_from_slice(b" attempts ")?;
    out.extend_from_slice(count)?;
    out.extend_from_slice(b"\n")
}
