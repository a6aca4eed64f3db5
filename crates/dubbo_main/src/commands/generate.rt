//! The command `gen`: a script of a load, or the summary of its direct calls. It reads no input.
ghost use Rattle.std.specs.Prelude.{◌≡◌, ◌≤◌, IfOk};
ghost use Rattle.dubbo_main.specs.GeneratedScript.{generated_script as the_script};
ghost use Rattle.dubbo_main.specs.Generating.{IsGenerated, IsSummary};

mod script;
mod totals;

use self::script::generated_script;
use self::totals::{direct_totals, write_summary};
use crate::words::Show;
use call_plan::Script;
use std::alloc::{AllocError, Global};

/// What `gen` writes of the script of so many calls.
pub fn generated(alloc: Global, calls: u16, show: Show) -> Result<Vec<u8>, AllocError>
    requires { calls ≤ 4096 }
    ensures { IfOk result (λ text. IsGenerated calls show text.items) }
{
    let script = generated_script(alloc, calls)?;
    match show {
        Show::Script => Ok(script),
        Show::Summary => summary(alloc, calls, &script),
    }
}

/// The summary of the direct calls of the script of so many calls.
///
/// The script that is made is none that is refused, so the test only stands where no contract says so.
fn summary(alloc: Global, calls: u16, bytes: &[u8]) -> Result<Vec<u8>, AllocError>
    requires few { calls ≤ 4096 }
    requires made { bytes.now ≡ the_script calls }
    ensures { IfOk result (λ text. IsSummary calls text.items) }
{
    match Script::read(alloc, bytes) {
        Ok(script) => {
            let totals = direct_totals(alloc, &script)?;
            write_summary(alloc, calls, &totals)
        }
        Err(_) => Err(AllocError),
    }
}
