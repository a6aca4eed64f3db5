//! Which calls of an end in memory fail.
ghost use Rattle.std.specs.Prelude.{◌≡◌, ◌≤◌, ◌+◌, ◌-◌, ◌^◌, ◌↔◌, ◌<◌, ℕ, min, IsTrue, Contains, slice_index};
ghost use Rattle.dubbo_io.specs.Count.{last_count, Rose};

use crate::counts::risen;

/// The numbers of the calls that are to fail, and what was counted so far.
#[derive(Drop)]
pub struct Schedule {
    /// The numbers of the failing calls. The first call has number 1.
    pub failing: Vec<u64>,
    /// How many calls were counted.
    pub made: u64,
    /// How often the end failed.
    pub faults: u64,
    ghost in_range: { faults ≤ last_count },
    ghost numbers: { (i : ℕ) → slice_index failing.items i < 2 ^ 64 },
}

impl Schedule {
    /// A schedule before the first call.
    pub fn new(failing: Vec<u64>) -> Schedule
        ensures failing { result.failing ≡ failing }
        ensures made { result.made ≡ 0 }
        ensures faults { result.faults ≡ 0 }
    {
        Schedule {
            failing,
            made: 0,
            faults: 0,
        }
    }

    /// Counts a call, and says whether it is one that fails.
    pub fn next_fails(&mut self) -> bool
        ensures named { IsTrue result ↔ Contains self.old.failing.items (self.old.made + 1) }
        ensures made { self.new.made ≡ min (self.old.made + 1) (2 ^ 64 - 1) }
        ensures failing { self.new.failing ≡ self.old.failing }
        ensures faults { self.new.faults ≡ self.old.faults }
    {
        match self.made.checked_add(1) {
            Some(call) => {
                self.made = call;
                is_named(&self.failing, call)
            }
            None => false,
        }
    }

    /// Counts a fault.
    pub fn fail(&mut self)
        ensures rose { Rose self.old.faults self.new.faults }
        ensures later { self.old.faults ≤ self.new.faults }
        ensures failing { self.new.failing ≡ self.old.failing }
        ensures made { self.new.made ≡ self.old.made }
    {
        self.faults = risen(self.faults);
    }
}

fn is_named(failing: &[u64], call: u64) -> bool
    ensures { IsTrue result ↔ Contains failing.now call }
{
    failing.contains(&call)
}
