//! Scripts of the first form: services that answer with their argument, and calls to them.

ghost use Rattle.std.specs.Prelude.{◌≡◌, ◌<◌, ◌^◌, length, IfOk, IfErr};
ghost use Rattle.dubbo_play.specs.FirstForm.{AreCalls};
ghost use Rattle.dubbo_play.specs.FirstScript.{Reads, Refuses};

mod cuts;
mod fields;
mod laws;
mod lines;
mod services;

pub use self::laws::first_script_laws;
use self::lines::{first_line, take_line};
use self::services::Services;
use std::alloc::{AllocError, Global};
use std::marker::Model;
use thiserror::Error;

/// Why bytes give no script of the first form.
#[derive(Clone, Copy, Debug, PartialEq, Eq, Error)]
pub enum FirstFault {
    /// The first line that isn't of the first form, counted from 1.
    #[error("script {line} not built")]
    NotBuilt { line: u32 },
    /// There was no memory.
    #[error("memory")]
    OutOfMemory,
}

/// One call of a script: a service's path and method, and the int that is sent.
#[derive(Drop)]
pub struct FirstCall {
    path: String,
    method: String,
    argument: i32,
}

impl Model for FirstCall {
    ghost use Rattle.std.specs.Prelude.{string_bytes};
    ghost use Rattle.dubbo_play.specs.FirstForm.{Call};

    ghost Value = { Call };

    ghost view = { λ c. record { path = string_bytes c.path; method = string_bytes c.method; argument = c.argument } };
}

impl FirstCall {
    fn new(alloc: Global, path: &str, method: &str, argument: i32) -> Result<FirstCall, AllocError>
        ensures { IfOk result (λ call.
            call ≡ record { path = path.now; method = method.now; argument = argument }) }
    {
        Ok(FirstCall {
            path: String::from_str(alloc, path)?,
            method: String::from_str(alloc, method)?,
            argument,
        })
    }

    /// The path of the service, 1 to 255 bytes from x21 to x7e.
    pub fn path(&self) -> &str
        ensures { result.now ≡ self.now.path }
    {
        self.path.as_str()
    }

    /// The method of the service, 1 to 255 bytes from x21 to x7e.
    pub fn method(&self) -> &str
        ensures { result.now ≡ self.now.method }
    {
        self.method.as_str()
    }

    /// The int that the call sends.
    pub fn argument(&self) -> i32
        ensures { result ≡ self.now.argument }
    {
        self.argument
    }
}

/// A script of the first form, seen by contracts as the list of its calls in order.
#[derive(Drop)]
pub struct FirstScript {
    calls: Vec<FirstCall>,
}

impl Model for FirstScript {
    ghost use Rattle.std.specs.Prelude.{List};
    ghost use Rattle.dubbo_play.specs.FirstForm.{Call};
    ghost use Rattle.dubbo_play.specs.FirstForm.{AreCalls};

    ghost Value = { List Call };

    ghost view = { λ s. s.calls.items };

    ghost invariant = { λ s. AreCalls s.calls.items };
}

impl FirstScript {
    /// The calls in the order of their lines, 4,096 at most. It takes no memory.
    pub fn calls(&self) -> &[FirstCall]
        ensures all { result.now ≡ self.now }
        ensures fit { AreCalls self.now }
    {
        &self.calls
    }

    /// Reads a script. Its lines count from 1, each ends by a line feed, which the last may lack.
    pub fn read(alloc: Global, bytes: &[u8]) -> Result<FirstScript, FirstFault>
        requires { length bytes.now < 2 ^ 31 }
        ensures ok { IfOk result (Reads bytes.now) }
        ensures refused { IfErr result (Refuses bytes.now) }
    {
        let mut calls = Vec::new(alloc);
        let mut services = Services::new(alloc);
        let mut rest = bytes;
        let mut number = 0;
        while !rest.is_empty() {
            let (line, after) = first_line(rest);
            number += 1;
            match take_line(alloc, &mut calls, &mut services, line) {
                Ok(true) => rest = after,
                Ok(false) => return Err(FirstFault::NotBuilt { line: number }),
                Err(_) => return Err(FirstFault::OutOfMemory),
            }
        }
        Ok(FirstScript { calls })
    }
}

#[cfg(test)]
mod tests;
