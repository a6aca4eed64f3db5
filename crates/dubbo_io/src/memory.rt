//! Ends that are buffers, and fail at the calls that their maker names.
ghost use Rattle.std.specs.Prelude.{◌≤◌, ◌<◌};

mod mem_sink;
mod mem_source;
mod schedule;

pub use mem_sink::MemSink;
pub use mem_source::MemSource;

/// How many bytes a call moves, of those that are there and those that fit. A `cut` of 0 is no bound.
fn step_of(there: usize, room: usize, cut: usize) -> usize
    requires there { 0 < there }
    requires room { 0 < room }
    ensures some { 0 < result }
    ensures there { result ≤ there }
    ensures room { result ≤ room }
    ensures cut { 0 < cut → result ≤ cut }
{
    let most = there.min(room);
    if cut == 0 { most } else { most.min(cut) }
}
