//! The command `ring`: names come to a ring and leave it, and keys are given names.
ghost use Rattle.std.specs.Prelude.{◌≡◌, ◌≤◌, ◌++◌, ℕ, List, [], length, IfOk, OnOk};
ghost use Rattle.hash_ring.specs.Names.{IsName};
ghost use Rattle.dubbo_main.specs.RingLines.{ComesOf, Prints, RingAnswers, Says};
ghost use Rattle.dubbo_main.specs.RingLines.Ask.{add};
ghost use Rattle.dubbo_main.specs.PlainCommands.{status_of, text_of};

mod asks;

use self::asks::{RingAsk, ring_ask};
use super::Answer;
use crate::fault_line::damaged;
use crate::input::INPUT_LIMIT;
use crate::lines::first_line;
use hash_ring::{Ring, RingFault};
use std::alloc::{AllocError, Global};

/// Why a line is damaged.
#[derive(Clone, Copy, Debug, PartialEq, Eq)]
pub enum Damage {
    /// It asks for nothing that there is.
    Form,
    /// It adds a name that the ring has.
    Repeated,
    /// It removes a name that the ring hasn't.
    Unknown,
    /// It adds a name to a ring that is full.
    Many,
}

/// What is printed of these lines, which count from 1.
pub fn answer_ring(alloc: Global, input: &[u8]) -> Result<Answer, AllocError>
    requires { length input.now ≤ INPUT_LIMIT }
    ensures { IfOk result (λ answer. RingAnswers input.now (status_of answer) (text_of answer)) }
{
    let mut ring = Ring::new(alloc);
    let mut text = Vec::new(alloc);
    let mut rest = input;
    let mut number = 1;
    while !rest.is_empty() {
        let (line, after) = first_line(rest);
        if let Some(damage) = take_line(&mut ring, &mut text, line)? {
            text.extend_from_slice(damaged(number, damage).as_bytes())?;
            return Ok(Answer::Damaged(text));
        }
        rest = after;
        number += 1;
    }
    Ok(Answer::Done(text))
}

/// Takes one line more, and appends what is printed of it.
fn take_line(ring: &mut Ring, text: &mut Vec<u8>, line: &[u8]) -> Result<Option<Damage>, AllocError>
    ensures { IfOk result (λ damage. (printed : List ℕ) × (text.new.items ≡ text.old.items ++ printed)
        × ComesOf ring.old line.now damage ring.new printed) }
{
    match ring_ask(line) {
        Some(RingAsk::Nothing) => Ok(None),
        Some(RingAsk::Add(name)) => add_name(ring, name),
        Some(RingAsk::Remove(name)) => {
            if ring.remove(name) {
                Ok(None)
            } else {
                Ok(Some(Damage::Unknown))
            }
        }
        Some(RingAsk::Choose(key)) => {
            print_choice(ring, text, key)?;
            Ok(None)
        }
        None => Ok(Some(Damage::Form)),
    }
}

/// Adds a name to the ring.
fn add_name(ring: &mut Ring, name: &str) -> Result<Option<Damage>, AllocError>
    requires { IsName name.now }
    ensures { IfOk result (λ damage. (line : List ℕ) → Says line (add name.now)
        → ComesOf ring.old line damage ring.new []) }
{
    match ring.add(name) {
        Ok(()) => Ok(None),
        Err(RingFault::BadName { .. }) => Ok(Some(Damage::Form)),
        Err(RingFault::Repeated) => Ok(Some(Damage::Repeated)),
        Err(RingFault::TooMany) => Ok(Some(Damage::Many)),
        Err(RingFault::OutOfMemory) => Err(AllocError),
    }
}

/// Appends the line of a key.
fn print_choice(ring: &Ring, text: &mut Vec<u8>, key: &str) -> Result<(), AllocError>
    ensures { OnOk result ((printed : List ℕ) × (text.new.items ≡ text.old.items ++ printed)
        × Prints ring.now key.now printed) }
{
    text.extend_from_slice(key.as_bytes())?;
    match ring.choose(key.as_bytes()) {
        Some(name) => {
            text.extend_from_slice(b" ")?;
            text.extend_from_slice(name.as_bytes())?;
            text.extend_from_slice(b"\n")
        }
        None => text.extend_from_slice(b" none\n"),
    }
}
