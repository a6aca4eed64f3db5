//! The number of parameters that a descriptor names.

ghost use Rattle.std.specs.Prelude.{◌≡◌, ◌<◌, ◌↔◌, ℕ, Ok, Err, IsTrue};
ghost use Rattle.dubbo_bodies.specs.Stages.{IsFull, ended};
ghost use Rattle.dubbo_bodies.specs.declared.descriptor.TheConstants.{MOST_ARGS};
ghost use Rattle.dubbo_bodies.specs.Descriptor.{HasArgs, StopsAt, ExceedsAt, Tells};

use crate::fault::DescFault;
use crate::stage::{Stage, stage_after};

/// The most parameters that a descriptor may have.
pub const MOST_ARGS: u32 = 255;

/// The number of parameters of a descriptor, which are written as those of a method in Java's class files.
///
/// A parameter is any number of `[` and then one of `Z B C S I J F D`, or `L`, a name and `;`.
pub fn count_args(desc: &[u8]) -> Result<u32, DescFault>
    ensures ok { (count : ℕ) → (result ≡ Ok count) ↔ HasArgs desc.now count }
    ensures bad { (at : ℕ) → (result ≡ Err (DescFault.BadDescriptor at)) ↔ StopsAt desc.now at }
    ensures many { (at : ℕ) → (result ≡ Err (DescFault.TooManyArgs at)) ↔ ExceedsAt desc.now at }
{
    counted(desc)
}

/// The number of parameters, or the first byte that is refused.
fn counted(desc: &[u8]) -> Result<u32, DescFault>
    ensures { Tells desc.now result }
{
    let mut stage = Stage::Between;
    let mut count = 0;
    for (at, byte) in desc.iter().enumerate() {
        let Some(next) = stage_after(stage, *byte) else {
            return Err(DescFault::BadDescriptor { at });
        };
        if is_full(stage, count) {
            return Err(DescFault::TooManyArgs { at });
        }
        count = ended(next, count);
        stage = next;
    }
    match stage {
        Stage::Between => Ok(count),
        _ => Err(DescFault::BadDescriptor { at: desc.len() }),
    }
}

/// Whether as many parameters as there may be have ended, and the next would begin.
fn is_full(stage: Stage, count: u32) -> bool
    ensures { IsTrue result ↔ IsFull stage count }
{
    match stage {
        Stage::Between => count == MOST_ARGS,
        _ => false,
    }
}

/// How many parameters have ended where a stage is reached.
fn ended(stage: Stage, count: u32) -> u32
    requires { count < MOST_ARGS }
    ensures { result ≡ ended stage count }
{
    match stage {
        Stage::Between => count + 1,
        _ => count,
    }
}
