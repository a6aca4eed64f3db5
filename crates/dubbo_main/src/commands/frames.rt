//! The command `frames`: a line for each frame of a stream, and one for the rest that is none.
ghost use Rattle.std.specs.Prelude.{◌≡◌, IfOk};
ghost use Rattle.dubbo_main.specs.Framing.{FramesAnswers};
ghost use Rattle.dubbo_main.specs.PlainCommands.{status_of, text_of};

mod finding;
mod heads;
mod line;
mod messages;
mod rest;
mod shown;

use self::finding::first_frame;
use self::line::write_line;
use self::rest::{fault_of, write_rest};
use super::Answer;
use std::alloc::{AllocError, Global};

/// A line for each whole frame of the input in order, and one more where the rest behind the last of them isn't empty.
pub fn answer_frames(alloc: Global, input: &[u8]) -> Result<Answer, AllocError>
    ensures { IfOk result (λ answer. FramesAnswers input.now (status_of answer) (text_of answer)) }
{
    let mut text = Vec::new(alloc);
    let mut rest = input;
    while let Some(found) = first_frame(rest) {
        let at = input.len() - rest.len();
        write_line(alloc, &mut text, at, &found.header, found.body)?;
        rest = found.behind;
    }
    if rest.is_empty() {
        return Ok(Answer::Done(text));
    }
    write_rest(&mut text, input.len() - rest.len(), fault_of(rest))?;
    Ok(Answer::Damaged(text))
}
