//! A source in memory, whose calls can be made to fail.

ghost use Rattle.std.specs.Prelude.{◌≡◌, ◌<◌, ◌≤◌, ◌++◌, [], length, min, take, drop, Some, IsErr, IfOk, OnErr, ◌↔◌};
ghost use Rattle.xfs_disk.specs.Counts.{CountsFailure};

use crate::schedule::Schedule;
use std::alloc::Global;
use xfs_disk::{Failed, NoMemory, Source, count_failure};

/// A source of bytes in memory. It tells the bytes that are left.
#[derive(Drop)]
pub struct MemorySource {
    bytes: Vec<u8>,
    /// How many bytes were given.
    given: usize,
    faults: u64,
    schedule: Schedule,
    ghost within: { given ≤ length bytes.items },
    ghost quiet: { schedule.failing.items ≡ [] → faults ≡ 0 },
}

impl MemorySource {
    ghost use Rattle.xfs_memory.specs.MemorySource.{left_to_take, faults_of, schedule_of};
    ghost use Rattle.xfs_memory.specs.Schedule.{calls_made, failing_calls, AddsCall};

    /// A source of these bytes, with no call that is to fail.
    pub fn make(alloc: Global, bytes: &[u8]) -> Result<MemorySource, NoMemory>
        ensures left { IfOk result (λ source. ⟦<MemorySource as Source>⟧.left source ≡ Some bytes.now) }
        ensures faults { IfOk result (λ source. ⟦<MemorySource as Source>⟧.faults source ≡ 0) }
        ensures calls { IfOk result (λ source. calls_made (schedule_of source) ≡ 0) }
        ensures failing { IfOk result (λ source. failing_calls (schedule_of source) ≡ []) }
    {
        match Vec::from_slice(alloc, bytes) {
            Ok(bytes) => Ok(MemorySource {
                bytes,
                given: 0,
                faults: 0,
                schedule: Schedule::new(alloc),
            }),
            Err(_) => Err(NoMemory),
        }
    }

    /// Makes the call of this number fail and do nothing else, counted from 1 from now on.
    pub fn fail(&mut self, call: u64) -> Result<(), NoMemory>
        ensures added { AddsCall call (schedule_of self.old) (schedule_of self.new) result }
        ensures left { left_to_take self.new ≡ left_to_take self.old }
        ensures faults { faults_of self.new ≡ faults_of self.old }
    {
        self.schedule.fail(call)
    }

    /// The bytes that are left.
    fn bytes_left(&self) -> &[u8]
        ensures { result.now ≡ left_to_take self.now }
    {
        &self.bytes[self.given..]
    }
}

impl Source for MemorySource {
    ghost use Rattle.xfs_memory.specs.MemorySource.{left_to_take, faults_of, schedule_of};
    ghost use Rattle.xfs_memory.specs.Schedule.{IsToFail, CountsCall};

    ghost left = { λ source. Some (left_to_take source) };

    ghost faults = { faults_of };

    /// Moves as many bytes as are left and as there is room for.
    fn take(&mut self, into: &mut [u8]) -> Result<usize, Failed>
        requires { 0 < length into.old }
        ensures fails { IsErr result ↔ IsToFail (schedule_of self.old) }
        ensures most { IfOk result (λ n. n ≡ min (length into.old) (length (left_to_take self.old))) }
        ensures moved { IfOk result (λ n. into.new ≡ take n (left_to_take self.old) ++ drop n into.old) }
        ensures left { IfOk result (λ n. left_to_take self.new ≡ drop n (left_to_take self.old)) }
        ensures stays { OnErr result (left_to_take self.new ≡ left_to_take self.old) }
        ensures untouched { OnErr result (into.new ≡ into.old) }
        ensures faults { CountsFailure (faults_of self.old) (faults_of self.new) result }
        ensures counted { CountsCall (schedule_of self.old) (schedule_of self.new) }
    {
        if self.schedule.count() {
            return Err(count_failure(&mut self.faults));
        }
        let count = move_front(self.bytes_left(), into);
        self.given += count;
        Ok(count)
    }
}

/// Moves as many bytes to the front as are there and as there is room for, and tells how many.
fn move_front(from: &[u8], into: &mut [u8]) -> usize
    ensures most { result ≡ min (length into.old) (length from.now) }
    ensures moved { into.new ≡ take result from.now ++ drop result into.old }
{
    let count = into.len().min(from.len());
    into[..count].copy_from_slice(&from[..count]);
    count
}
