//! Which calls of an object in memory are to fail.

ghost use Rattle.std.specs.Prelude.{◌≡◌, [], IsTrue, ◌↔◌};

use std::alloc::Global;
use xfs_disk::NoMemory;

/// Counts calls, and knows which of them are to fail.
#[derive(Drop)]
pub(crate) struct Schedule {
    /// The calls made so far.
    calls: u64,
    /// The calls that are to fail, each by its number since the first call of all.
    failing: Vec<u128>,
}

impl Schedule {
    ghost use Rattle.xfs_memory.specs.Schedule.{calls_made, failing_calls, IsToFail, CountsCall, AddsCall};

    /// No call is to fail.
    pub(crate) fn new(alloc: Global) -> Schedule
        ensures calls { calls_made result ≡ 0 }
        ensures failing { failing_calls result ≡ [] }
    {
        Schedule {
            calls: 0,
            failing: Vec::new(alloc),
        }
    }

    /// Makes the call of this number fail, counted from 1 from now on.
    pub(crate) fn fail(&mut self, call: u64) -> Result<(), NoMemory>
        ensures { AddsCall call self.old self.new result }
    {
        let number = u128::from(self.calls) + u128::from(call);
        match self.failing.push(number) {
            Ok(()) => Ok(()),
            Err(_) => Err(NoMemory),
        }
    }

    /// Counts a call, and says whether it is to fail.
    pub(crate) fn count(&mut self) -> bool
        ensures due { IsTrue result ↔ IsToFail self.old }
        ensures counted { CountsCall self.old self.new }
    {
        self.calls = self.calls.saturating_add(1);
        let number = u128::from(self.calls);
        self.failing.contains(&number)
    }
}
