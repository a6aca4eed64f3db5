//! The words of the command line.
ghost use Rattle.std.specs.Prelude.{◌≡◌, ◌↔◌, ◌⊎◌, ◌<◌, [], IsTrue, MatchOption, codes, length, map, string_bytes};
ghost use Rattle.dubbo_main.specs.PlainCommands.{ReadsInput};
ghost use Rattle.dubbo_main.specs.Words.{Calls, HasNoReading, IsPlay, IsWaiting, Names};

use crate::options::{generated_of, roots_of};
use std::alloc::{AllocError, Global};
use std::env::{self, Env};
use std::io::ErrorKind;

/// What `gen` writes.
#[derive(Clone, Copy, Debug, PartialEq, Eq)]
pub enum Show {
    /// What the direct calls of the script give, counted.
    Summary,
    /// The script itself.
    Script,
}

/// A command that waits for nobody, with its options.
#[derive(Clone, Copy, Debug, PartialEq, Eq)]
pub enum PlainCommand {
    /// `decode`: from the bytes of so many roots to their notation.
    Decode { roots: u32 },
    /// `direct`: the calls of a script are made directly, with no link.
    Direct,
    /// `encode`: from the notation of a graph to its bytes.
    Encode,
    /// `frames`: a line for each frame of a stream.
    Frames,
    /// `gen`: a script of so many calls is made, at most 4,096.
    Gen { calls: u16, show: Show },
    /// `ring`: names come to a ring and leave it, and keys are given names.
    Ring,
}

/// The words that the program was started with, its own name first.
///
/// Words that are no text have no reading, and neither has the empty list, which stands for them.
pub fn given<R: Env + AllocGlobal>(rt: &R, alloc: Global) -> Result<Vec<String>, AllocError> {
    match env::args(rt) {
        Ok(words) => words.collect(alloc),
        Err(error) if error.kind() == ErrorKind::OutOfMemory => Err(AllocError),
        Err(_) => Ok(Vec::new(alloc)),
    }
}

/// Whether the words are the program's name and `play`.
pub fn are_play(words: &[String]) -> bool
    ensures { IsTrue result ↔ IsPlay (map string_bytes words.now) }
{
    match words {
        [_, command] => is_play(command),
        _ => false,
    }
}

/// Whether a word names the command `play`.
fn is_play(word: &str) -> bool
    ensures { IsTrue result ↔ (word.now ≡ codes "play") }
{
    word == "play"
}

/// Whether the words call for a command that may wait for others: their second is `play` or `serve`.
pub fn waits(words: &Vec<String>) -> bool
    ensures { IsTrue result ↔ IsWaiting (map string_bytes words.now.items) }
{
    match words.as_slice() {
        [_, command, ..] => is_waiting(command),
        _ => false,
    }
}

/// Whether a word names a command that may wait for others.
fn is_waiting(word: &str) -> bool
    ensures { IsTrue result ↔ ((word.now ≡ codes "play") ⊎ (word.now ≡ codes "serve")) }
{
    word == "play" || word == "serve"
}

/// The command that the words call for, if it is one that waits for nobody.
pub fn plain_command(words: &Vec<String>) -> Option<PlainCommand>
    ensures { MatchOption result (HasNoReading (map string_bytes words.now.items))
        (Names (map string_bytes words.now.items)) }
{
    match words.as_slice() {
        [_, word, options @ ..] => command_of(word, options),
        _ => None,
    }
}

/// The command that this word and the options behind it call for.
fn command_of(word: &str, options: &[String]) -> Option<PlainCommand>
    ensures { MatchOption result
        ((command : PlainCommand) → ¬ Calls word.now (map string_bytes options.now) command)
        (Calls word.now (map string_bytes options.now)) }
{
    match options {
        [] => command_alone(word),
        _ => command_with(word, options),
    }
}

/// The command that this word and some options call for.
fn command_with(word: &str, options: &[String]) -> Option<PlainCommand>
    requires { 0 < length options.now }
    ensures { MatchOption result
        ((command : PlainCommand) → ¬ Calls word.now (map string_bytes options.now) command)
        (Calls word.now (map string_bytes options.now)) }
{
    if word == "decode" {
        let roots = u32::from(roots_of(options)?);
        return Some(PlainCommand::Decode { roots });
    }
    if word == "gen" {
        let (calls, show) = generated_of(options)?;
        return Some(PlainCommand::Gen { calls, show });
    }
    None
}

/// The command that this word calls for without options.
fn command_alone(word: &str) -> Option<PlainCommand>
    ensures { MatchOption result ((command : PlainCommand) → ¬ Calls word.now [] command) (Calls word.now []) }
{
    if word == "decode" {
        return Some(PlainCommand::Decode { roots: 1 });
    }
    if word == "direct" {
        return Some(PlainCommand::Direct);
    }
    if word == "encode" {
        return Some(PlainCommand::Encode);
    }
    if word == "frames" {
        return Some(PlainCommand::Frames);
    }
    if word == "ring" {
        return Some(PlainCommand::Ring);
    }
    None
}

/// The number of calls and what is shown, where the command makes a script and reads no input.
pub fn made_by(command: PlainCommand) -> Option<(u16, Show)>
    ensures { MatchOption result (ReadsInput command) (λ made. command ≡ PlainCommand.Gen made.0 made.1) }
{
    match command {
        PlainCommand::Gen { calls, show } => Some((calls, show)),
        PlainCommand::Decode { .. }
        | PlainCommand::Direct
        | PlainCommand::Encode
        | PlainCommand::Frames
        | PlainCommand::Ring => None,
    }
}
