//! The line that says where an input is damaged that is refused as a whole. Making it takes no memory.
ghost use Rattle.std.specs.Prelude.{◌≡◌, ◌≢◌, ◌≤◌, MatchOption, length};
ghost use Rattle.dubbo_bodies.specs.FaultTexts.{hessian_words};
ghost use Rattle.dubbo_main.specs.FaultTexts.{damage_line, notation_text};

use crate::fault_line::{NumberLine, around};
use dubbo_bodies::bytes_text;
use graph_notation::NotationFault;
use hessian_reader::HessianFault;
use itoa::Buffer;

/// The line of a text that is no notation, or none for want of memory.
pub fn notation_damage(fault: NotationFault) -> Option<NumberLine>
    ensures { MatchOption result (fault ≡ NotationFault.OutOfMemory)
        (λ line. (fault ≢ NotationFault.OutOfMemory) × (line.bytes ≡ damage_line (notation_text fault))) }
{
    match fault {
        NotationFault::BadNotation { at } => Some(around("damaged notation ", at as u64, "\n")),
        NotationFault::UnknownNode { at, number } => Some(unknown_node(at, number)),
        NotationFault::TooManyNodes { at } => Some(around("damaged nodes ", at as u64, "\n")),
        NotationFault::OutOfMemory => None,
    }
}

/// The line of a reference to a node that hasn't begun.
fn unknown_node(at: usize, number: u32) -> NumberLine
    ensures { result.bytes ≡ damage_line (notation_text (NotationFault.UnknownNode at number)) }
{
    let mut line = around("damaged node ", at as u64, " ");
    let mut digits = Buffer::new();
    line.push_str(digits.format(number));
    line.push_str("\n");
    line
}

/// The line of bytes that denote no graph, or none for want of memory.
pub fn hessian_damage(fault: HessianFault) -> Option<NumberLine>
    ensures { MatchOption result (fault ≡ HessianFault.OutOfMemory)
        (λ line. (fault ≢ HessianFault.OutOfMemory) × (line.bytes ≡ damage_line (hessian_words fault))) }
{
    match fault {
        HessianFault::OutOfMemory => None,
        _ => Some(damaged(bytes_text(fault).as_str())),
    }
}

/// The line with this text.
fn damaged(text: &str) -> NumberLine
    requires { length text.now ≤ 48 }
    ensures { result.bytes ≡ damage_line text.now }
{
    let mut line = NumberLine::new();
    line.push_str("damaged ");
    line.push_str(text);
    line.push_str("\n");
    line
}
