//! The words of the command line.

use std::alloc::Global;
use std::env::{self, Env};

/// What is done in a round.
#[derive(Clone, Copy, Debug, PartialEq, Eq)]
pub enum Action {
    /// The bytes are read.
    Read,
    /// The graph is written.
    Write,
}

/// What is printed.
#[derive(Clone, Copy, Debug, PartialEq, Eq)]
pub enum Show {
    /// How many nodes or bytes the last round gave.
    Size,
    /// How many nanoseconds the least round took.
    Least,
}

/// What is done how often.
#[derive(Clone, Copy, Debug, PartialEq, Eq)]
pub struct Rounds {
    /// What is done.
    pub action: Action,
    /// How often.
    pub count: u32,
    /// What is printed of it.
    pub show: Show,
}

/// The words that the program was started with, its own name first.
pub fn given<R: Env + AllocGlobal>(rt: &R, alloc: Global) -> Option<Vec<String>> {
    env::args(rt).ok()?.collect(alloc).ok()
}

/// The rounds that the words ask for.
pub fn rounds_of(words: &Vec<String>) -> Option<Rounds> {
    match words.as_slice() {
        [_, what, count] => asked(what, count, Show::Size),
        [_, what, count, show] if show.as_str() == "least" => asked(what, count, Show::Least),
        _ => None,
    }
}

/// The rounds of an action and a count.
fn asked(what: &str, count: &str, show: Show) -> Option<Rounds> {
    let action = match what {
        "read" => Action::Read,
        "write" => Action::Write,
        _ => return None,
    };
    let count = count.parse().ok()?;
    Some(Rounds {
        action,
        count,
        show,
    })
}
