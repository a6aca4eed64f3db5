//! The program: its words, its input and its output, and the status that it ends with.
#![tactic(auto)]

mod commands;
mod damage_line;
mod fault_line;
mod input;
mod lines;
mod options;
mod top;
mod words;

use dubbo_io::{StdSink, StdSource};
use std::process::ExitCode;

#[cfg(test)]
mod tests;

fn main(rt: HostRuntime) -> ExitCode {
    let alloc = rt.alloc();
    let mut input = StdSource::new(rt.stdin());
    let mut output = StdSink::new(rt.stdout());
    let status = match words::given(&rt, alloc) {
        Ok(words) => {
            if words::waits(&words) {
                top::run(alloc, &words, &mut input, &mut output)
            } else {
                top::run_plain(alloc, &words, &mut input, &mut output)
            }
        }
        Err(_) => top::without_memory(&mut output),
    };
    ExitCode::from(status)
}
