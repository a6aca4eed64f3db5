//! The top call: one run of the program, from its words and its input to its output and its status.
ghost use Rattle.std.specs.Prelude.{◌≡◌, ℕ, ◌+◌, ◌<◌, ◌⊎◌, IsSome, MatchResult, map, string_bytes};
ghost use Rattle.dubbo_main.specs.Words.{HasNoReading, IsPlay, Names};
ghost use Rattle.dubbo_main.specs.Statuses.{Ends, Comes, IsExact};
ghost use Rattle.dubbo_main.specs.PlayStatuses.{CallsFor, Plays};
ghost use Rattle.dubbo_main.specs.PlainStatuses.{PlainCallsFor, WritesAnswer, WritesGenerated};
ghost use Rattle.dubbo_main.specs.PlainCommands.{status_of as answer_status, text_of};
ghost use Rattle.dubbo_main.specs.Decoding.{DecodeAnswers};
ghost use Rattle.dubbo_main.specs.Directing.{DirectAnswers};
ghost use Rattle.dubbo_main.specs.Generating.{IsGenerated};
ghost use Rattle.dubbo_main.specs.Encoding.{EncodeAnswers};
ghost use Rattle.dubbo_main.specs.Framing.{FramesAnswers};
ghost use Rattle.dubbo_main.specs.RingLines.{RingAnswers};
ghost use Rattle.dubbo_main.specs.Input.{input_limit};
ghost use Rattle.dubbo_main.specs.FaultLines.{memory_line};
ghost use Rattle.dubbo_main.specs.PlayFault.{status_of, line_of};
ghost use Rattle.dubbo_main.specs.Unread.{unread_status, unread_line};
ghost use Rattle.dubbo_main.specs.declared.words.PlainCommand.TheVariants.{Decode, Direct, Encode, Frames, Gen, Ring};

use crate::commands::{Answer, PlayFault, answer_whole, generated, play};
use crate::fault_line::{MEMORY_LINE, TOO_LONG_LINE, WORDS_LINE, input_failed, not_built};
use crate::input::INPUT_LIMIT;
use crate::words::{Show, are_play, made_by, plain_command};
use dubbo_io::{ReadFault, Sink, Source, read_all, write_all};
use std::alloc::{AllocError, Global};

/// Runs the command that the words name over this input, writes its output, and answers the status.
///
/// | Status | Comes |
/// |---|---|
/// | 0 | the script was played, and its transcript is written |
/// | 1 | the words are other than the program's name and `play` |
/// | 2 | the script was refused |
/// | 3 | the input failed |
/// | 4 | the output failed, in place of any other status whose text couldn't be written |
/// | 6 | there was no memory |
/// | 7 | the input has more than 4,194,304 bytes |
pub fn run<I: Source, O: Sink>(
    alloc: Global,
    words: &Vec<String>,
    input: &mut I,
    output: &mut O,
) -> u8
    requires { (O.state output.old).open_to_all }
    ensures status { Comes (CallsFor (map string_bytes words.now.items) (I.state input.old) (I.state input.new))
        (O.state output.old) (O.state output.new) result }
    ensures exact { IsSome (I.state input.old).given → IsExact
        (CallsFor (map string_bytes words.now.items) (I.state input.old) (I.state input.new)) result }

    // What this says of single statuses.
    ensures played { result ≡ 0 → Plays (I.state input.old) (I.state input.new)
        (O.state output.old) (O.state output.new) }
    ensures other_words { ¬ IsPlay (map string_bytes words.now.items) → (result ≡ 1) ⊎ (result ≡ 4) }
    ensures too_long { (I.state input.old).count + input_limit < (I.state input.new).count
        → (result ≡ 7) ⊎ (result ≡ 4) }
{
    if !are_play(words) {
        return finish(output, WORDS_LINE.as_bytes(), 1);
    }
    match play(alloc, input) {
        Ok(text) => finish(output, &text, 0),
        Err(fault) => tell(output, fault),
    }
}

/// Runs a command that waits for nobody over this input, writes its output, and answers the status.
///
/// | Status | Comes |
/// |---|---|
/// | 0 | the command took its whole input, which `gen` does not read, and its answer is written |
/// | 1 | the words call for no such command |
/// | 2 | the script was refused |
/// | 3 | the input failed |
/// | 4 | the output failed, in place of any other status whose text couldn't be written |
/// | 6 | there was no memory |
/// | 7 | the input has more than 4,194,304 bytes |
/// | 8 | the input is damaged, and what the command answers to it is written |
pub fn run_plain<I: Source, O: Sink>(
    alloc: Global,
    words: &Vec<String>,
    input: &mut I,
    output: &mut O,
) -> u8
    requires { (O.state output.old).open_to_all }
    ensures status { Comes
        (PlainCallsFor (map string_bytes words.now.items) (I.state input.old) (I.state input.new))
        (O.state output.old) (O.state output.new) result }
    ensures exact { IsSome (I.state input.old).given → IsExact
        (PlainCallsFor (map string_bytes words.now.items) (I.state input.old) (I.state input.new)) result }

    // What this says of single statuses.
    ensures no_reading { HasNoReading (map string_bytes words.now.items) → (result ≡ 1) ⊎ (result ≡ 4) }
    ensures too_long { (I.state input.old).count + input_limit < (I.state input.new).count
        → (result ≡ 7) ⊎ (result ≡ 4) }

    // What each command writes at status 0, 2 and 8.
    ensures decode { (roots : ℕ) → Names (map string_bytes words.now.items) (Decode roots)
        → WritesAnswer (DecodeAnswers roots)
        (I.state input.old) (I.state input.new) (O.state output.old) (O.state output.new) result }
    ensures direct { Names (map string_bytes words.now.items) Direct → WritesAnswer DirectAnswers
        (I.state input.old) (I.state input.new) (O.state output.old) (O.state output.new) result }
    ensures encode { Names (map string_bytes words.now.items) Encode → WritesAnswer EncodeAnswers
        (I.state input.old) (I.state input.new) (O.state output.old) (O.state output.new) result }
    ensures frames { Names (map string_bytes words.now.items) Frames → WritesAnswer FramesAnswers
        (I.state input.old) (I.state input.new) (O.state output.old) (O.state output.new) result }
    ensures made { (calls : ℕ) (show : Show) → Names (map string_bytes words.now.items) (Gen calls show)
        → WritesGenerated (IsGenerated calls show)
        (I.state input.old) (I.state input.new) (O.state output.old) (O.state output.new) result }
    ensures ring { Names (map string_bytes words.now.items) Ring → WritesAnswer RingAnswers
        (I.state input.old) (I.state input.new) (O.state output.old) (O.state output.new) result }
{
    let Some(command) = plain_command(words) else {
        return finish(output, WORDS_LINE.as_bytes(), 1);
    };
    if let Some((calls, show)) = made_by(command) {
        return tell_generated(output, generated(alloc, calls, show));
    }
    match read_all(alloc, input, INPUT_LIMIT) {
        Ok(bytes) => tell_answer(output, answer_whole(alloc, command, &bytes)),
        Err(fault) => tell_unread(output, fault),
    }
}

/// Ends a run with what its command made of the input.
fn tell_answer<O: Sink>(output: &mut O, answer: Result<Answer, AllocError>) -> u8
    requires { (O.state output.old).open_to_all }
    ensures { MatchResult answer
        (λ a. Ends (O.state output.old) (O.state output.new) (answer_status a) (text_of a) result)
        (λ _. Ends (O.state output.old) (O.state output.new) 6 memory_line result) }
{
    match answer {
        Ok(Answer::Done(text)) => finish(output, &text, 0),
        Ok(Answer::Refused(text)) => finish(output, &text, 2),
        Ok(Answer::Damaged(text)) => finish(output, &text, 8),
        Err(_) => without_memory(output),
    }
}

/// Ends a run with what was made without an input.
fn tell_generated<O: Sink>(output: &mut O, text: Result<Vec<u8>, AllocError>) -> u8
    requires { (O.state output.old).open_to_all }
    ensures { MatchResult text
        (λ t. Ends (O.state output.old) (O.state output.new) 0 t.items result)
        (λ _. Ends (O.state output.old) (O.state output.new) 6 memory_line result) }
{
    match text {
        Ok(made) => finish(output, &made, 0),
        Err(_) => without_memory(output),
    }
}

/// Ends a run whose input was not read to its end. It takes no memory.
fn tell_unread<O: Sink>(output: &mut O, fault: ReadFault) -> u8
    requires { (O.state output.old).open_to_all }
    ensures { Ends (O.state output.old) (O.state output.new) (unread_status fault) (unread_line fault) result }
{
    match fault {
        ReadFault::Fault { faults } => finish(output, input_failed(faults).as_bytes(), 3),
        ReadFault::TooLong { .. } => finish(output, TOO_LONG_LINE.as_bytes(), 7),
        ReadFault::OutOfMemory => without_memory(output),
    }
}

/// Ends a run that played nothing, with the line and the status of the fault. It takes no memory.
fn tell<O: Sink>(output: &mut O, fault: PlayFault) -> u8
    requires { (O.state output.old).open_to_all }
    ensures { Ends (O.state output.old) (O.state output.new) (status_of fault) (line_of fault) result }
{
    match fault {
        PlayFault::Input { faults } => finish(output, input_failed(faults).as_bytes(), 3),
        PlayFault::TooLong => finish(output, TOO_LONG_LINE.as_bytes(), 7),
        PlayFault::NotBuilt { line } => finish(output, not_built(line).as_bytes(), 2),
        PlayFault::OutOfMemory => without_memory(output),
    }
}

/// Ends a run for want of memory. It takes none.
pub fn without_memory<O: Sink>(output: &mut O) -> u8
    requires { (O.state output.old).open_to_all }
    ensures { Ends (O.state output.old) (O.state output.new) 6 memory_line result }
{
    finish(output, MEMORY_LINE.as_bytes(), 6)
}

/// Writes what a run prints, and answers its status, or 4 where the output failed.
fn finish<O: Sink>(output: &mut O, text: &[u8], status: u8) -> u8
    requires { (O.state output.old).open_to_all }
    ensures { Ends (O.state output.old) (O.state output.new) status text.now result }
{
    match write_all(output, text) {
        Ok(()) => status,
        Err(_) => 4,
    }
}
