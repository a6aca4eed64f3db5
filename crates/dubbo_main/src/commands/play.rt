//! The command `play`: reads a script to its end, and makes its transcript.
ghost use Rattle.std.specs.Prelude.{◌≤◌, length, IfOk, IfErr};
ghost use Rattle.dubbo_main.specs.Play.{Transcribes, StopsPlaying, IsTranscript, RefusesScript};

use crate::input::INPUT_LIMIT;
use dubbo_io::{ReadFault, Source, read_all};
use dubbo_play::{FirstFault, FirstScript, first_link};
use std::alloc::Global;
use thiserror::Error;

/// Why a script is not played.
#[derive(Clone, Copy, Debug, PartialEq, Eq, Error)]
pub enum PlayFault {
    /// The input failed, and this many of its faults are told.
    #[error("input {faults}")]
    Input { faults: u64 },
    /// The input has more bytes than an input may have.
    #[error("input too long")]
    TooLong,
    /// The first line, counted from 1, that is of no form that is built.
    #[error("script {line} not built")]
    NotBuilt { line: u32 },
    /// There was no memory.
    #[error("memory")]
    OutOfMemory,
}

/// Reads the whole input as a script, plays it over one link, and gives what is to be printed.
pub fn play<I: Source>(alloc: Global, input: &mut I) -> Result<Vec<u8>, PlayFault>
    ensures ok { IfOk result (λ text. Transcribes (I.state input.old) (I.state input.new) text.items) }
    ensures stops { IfErr result (StopsPlaying (I.state input.old) (I.state input.new)) }
{
    match read_all(alloc, input, INPUT_LIMIT) {
        Ok(bytes) => transcript_of(alloc, &bytes),
        Err(ReadFault::Fault { faults }) => Err(PlayFault::Input { faults }),
        Err(ReadFault::TooLong { .. }) => Err(PlayFault::TooLong),
        Err(ReadFault::OutOfMemory) => Err(PlayFault::OutOfMemory),
    }
}

/// What is to be printed of the script that these bytes are.
fn transcript_of(alloc: Global, bytes: &[u8]) -> Result<Vec<u8>, PlayFault>
    requires { length bytes.now ≤ INPUT_LIMIT }
    ensures ok { IfOk result (λ text. IsTranscript bytes.now text.items) }
    ensures stops { IfErr result (RefusesScript bytes.now) }
{
    let script = match FirstScript::read(alloc, bytes) {
        Ok(script) => script,
        Err(FirstFault::NotBuilt { line }) => return Err(PlayFault::NotBuilt { line }),
        Err(FirstFault::OutOfMemory) => return Err(PlayFault::OutOfMemory),
    };
    let mut asks = Vec::new(alloc);
    let mut answers = Vec::new(alloc);
    match first_link(alloc, &script, &mut asks, &mut answers) {
        Ok(text) => Ok(text),
        Err(_) => Err(PlayFault::OutOfMemory),
    }
}
