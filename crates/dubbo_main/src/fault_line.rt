//! The line that a run prints where it does not do its work, or where its input is damaged. Making it takes no memory.
ghost use Rattle.std.specs.Prelude.{◌≡◌, ◌≢◌, ◌+◌, ◌≤◌, ◌++◌, length, decimal, MatchOption};
ghost use Rattle.dubbo_main.specs.FaultLines.{not_built_line, input_line, refused_line, script_line};
ghost use Rattle.dubbo_main.specs.RingLines.{damaged_line};

use crate::commands::Damage;
use arrayvec::ArrayString;
use call_plan::ScriptFault;
use itoa::Buffer;

/// The line for words that have no reading.
pub const WORDS_LINE: &str = "fault words\n";

/// The line for an input of too many bytes.
pub const TOO_LONG_LINE: &str = "fault input too long\n";

/// The line for want of memory.
pub const MEMORY_LINE: &str = "fault memory\n";

/// Room for any line with a number.
pub type NumberLine = ArrayString<64>;

/// The line for a script whose line with this number, counted from 1, is of no form that is built.
pub fn not_built(line: u32) -> NumberLine
    ensures { result.bytes ≡ not_built_line line }
{
    around("fault script ", u64::from(line), " not built\n")
}

/// The line of bytes that are no script, or none for want of memory.
pub fn refused_script(fault: ScriptFault) -> Option<NumberLine>
    ensures { MatchOption result (fault ≡ ScriptFault.OutOfMemory)
        (λ line. (fault ≢ ScriptFault.OutOfMemory) × (line.bytes ≡ script_line fault)) }
{
    match fault {
        ScriptFault::BadLine { line } => Some(refused(line, "bad line")),
        ScriptFault::TooManyCalls { line } => Some(refused(line, "too many calls")),
        ScriptFault::TooLarge { line } => Some(refused(line, "too large")),
        ScriptFault::OutOfMemory => None,
    }
}

/// The line for a script whose line with this number, counted from 1, is refused for this cause.
fn refused(line: u32, cause: &str) -> NumberLine
    requires { length cause.now ≤ 14 }
    ensures { result.bytes ≡ refused_line line cause.now }
{
    let mut text = around("fault script ", u64::from(line), " ");
    text.push_str(cause);
    text.push_str("\n");
    text
}

/// The line for an input that failed, and of whose faults this many are told.
pub fn input_failed(faults: u64) -> NumberLine
    ensures { result.bytes ≡ input_line faults }
{
    around("fault input ", faults, "\n")
}

/// The last line of a damaged input, whose line with this number, counted from 1, is damaged.
pub fn damaged(line: u32, damage: Damage) -> NumberLine
    ensures { result.bytes ≡ damaged_line line damage }
{
    let behind = match damage {
        Damage::Form => " form\n",
        Damage::Repeated => " repeated\n",
        Damage::Unknown => " unknown\n",
        Damage::Many => " many\n",
    };
    around("damaged line ", u64::from(line), behind)
}

/// A number between two texts.
pub fn around(before: &str, number: u64, behind: &str) -> NumberLine
    requires { length before.now + length behind.now ≤ 24 }
    ensures bytes { result.bytes ≡ before.now ++ decimal number ++ behind.now }
    ensures short { length result.bytes ≤ 44 }
{
    let mut line = NumberLine::new();
    let mut digits = Buffer::new();
    line.push_str(before);
    line.push_str(digits.format(number));
    line.push_str(behind);
    line
}
