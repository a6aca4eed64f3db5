//! The commands, a file for each.
ghost use Rattle.std.specs.Prelude.{◌≤◌, length, IfOk};
ghost use Rattle.dubbo_main.specs.PlainCommands.{Answers, ReadsInput, status_of, text_of};

mod answer;
mod decode;
mod direct;
mod encode;
mod frames;
mod generate;
mod play;
mod ring;

use crate::input::INPUT_LIMIT;
use crate::words::PlainCommand;
pub use answer::Answer;
use decode::answer_decode;
use direct::answer_direct;
use encode::answer_encode;
use frames::answer_frames;
pub use generate::generated;
pub use play::{PlayFault, play};
pub use ring::Damage;
use ring::answer_ring;
use std::alloc::{AllocError, Global};

/// What the command makes of its whole input. `gen` has none.
pub fn answer_whole(
    alloc: Global,
    command: PlainCommand,
    input: &[u8],
) -> Result<Answer, AllocError>
    requires reads { ReadsInput command }
    requires whole { length input.now ≤ INPUT_LIMIT }
    ensures { IfOk result (λ answer. Answers command input.now (status_of answer) (text_of answer)) }
{
    match command {
        PlainCommand::Decode { roots } => answer_decode(alloc, input, roots),
        PlainCommand::Direct => answer_direct(alloc, input),
        PlainCommand::Encode => answer_encode(alloc, input),
        PlainCommand::Frames => answer_frames(alloc, input),
        PlainCommand::Gen { .. } => unreachable!(),
        PlainCommand::Ring => answer_ring(alloc, input),
    }
}
