//! Counts that never fall, and stay at their last value.
ghost use Rattle.std.specs.Prelude.{◌≤◌};
ghost use Rattle.dubbo_io.specs.Count.{last_count, Rose};

/// The last value of a count of faults or of bytes.
pub const LAST_COUNT: u64 = (1 << 62) - 1;

/// The count after one more fault.
pub fn risen(faults: u64) -> u64
    requires { faults ≤ last_count }
    ensures rose { Rose faults result }
    ensures later { faults ≤ result }
    ensures in_range { result ≤ last_count }
{
    if faults < LAST_COUNT {
        faults + 1
    } else {
        faults
    }
}
