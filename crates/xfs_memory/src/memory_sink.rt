//! A sink in memory, with a bounded room and with calls that can be made to fail.

ghost use Rattle.std.specs.Prelude.{◌≡◌, ℕ, ◌<◌, ◌≤◌, ◌++◌, ◌⊎◌, [], length, take, Some, IsErr, IfOk, OnOk, OnErr, IsTrue, ◌↔◌, ◌-◌, false, vec_capacity};
ghost use Rattle.xfs_disk.specs.Counts.{CountsFailure};

use crate::schedule::Schedule;
use std::alloc::Global;
use xfs_disk::{Failed, NoMemory, Sink, count_failure};

/// A sink for bytes in memory. It tells the bytes that it took.
#[derive(Drop)]
pub struct MemorySink {
    bytes: Vec<u8>,
    /// How many bytes there is room for in all.
    room: usize,
    faults: u64,
    schedule: Schedule,
    ghost within: { length bytes.items ≤ room },
    ghost taken: { room ≤ vec_capacity bytes },
    ghost quiet: { schedule.failing.items ≡ [] → length bytes.items < room → faults ≡ 0 },
}

impl MemorySink {
    ghost use Rattle.xfs_memory.specs.MemorySink.{took_of, room_of, faults_of, schedule_of};
    ghost use Rattle.xfs_memory.specs.Schedule.{calls_made, failing_calls, AddsCall};

    /// An empty sink with room for so many bytes, and no call that is to fail.
    pub fn make(alloc: Global, room: usize) -> Result<MemorySink, NoMemory>
        ensures took { IfOk result (λ sink. ⟦<MemorySink as Sink>⟧.took sink ≡ Some []) }
        ensures faults { IfOk result (λ sink. ⟦<MemorySink as Sink>⟧.faults sink ≡ 0) }
        ensures room { IfOk result (λ sink. room_of sink ≡ room) }
        ensures calls { IfOk result (λ sink. calls_made (schedule_of sink) ≡ 0) }
        ensures failing { IfOk result (λ sink. failing_calls (schedule_of sink) ≡ []) }
    {
        match Vec::with_capacity(alloc, room) {
            Ok(bytes) => Ok(MemorySink {
                bytes,
                room,
                faults: 0,
                schedule: Schedule::new(alloc),
            }),
            Err(_) => Err(NoMemory),
        }
    }

    /// The bytes that were put.
    pub fn bytes(&self) -> &[u8]
        ensures { result.now ≡ took_of self.now }
    {
        self.bytes.as_slice()
    }

    /// Makes the call of this number fail and do nothing else, counted from 1 from now on.
    pub fn fail(&mut self, call: u64) -> Result<(), NoMemory>
        ensures added { AddsCall call (schedule_of self.old) (schedule_of self.new) result }
        ensures took { took_of self.new ≡ took_of self.old }
        ensures room { room_of self.new ≡ room_of self.old }
        ensures faults { faults_of self.new ≡ faults_of self.old }
    {
        self.schedule.fail(call)
    }
}

impl Sink for MemorySink {
    ghost use Rattle.xfs_memory.specs.MemorySink.{took_of, room_of, room_left, faults_of, schedule_of};
    ghost use Rattle.xfs_memory.specs.Schedule.{IsToFail, CountsCall};

    ghost took = { λ sink. Some (took_of sink) };

    ghost faults = { faults_of };

    /// Takes what there is room for, and fails where that isn't all. It takes no memory.
    fn put(&mut self, from: &[u8]) -> Result<(), Failed>
        ensures fails { IsErr result ↔ (IsToFail (schedule_of self.old) ⊎ (room_left self.old < length from.now)) }
        ensures whole { OnOk result (took_of self.new ≡ took_of self.old ++ from.now) }
        ensures part { (IsToFail (schedule_of self.old) → ⊥) → took_of self.new ≡ took_of self.old ++ take (room_left self.old) from.now }
        ensures prefix { OnErr result ((n : ℕ) × (n ≤ length from.now) × (took_of self.new ≡ took_of self.old ++ take n from.now)) }
        ensures nothing { IsToFail (schedule_of self.old) → took_of self.new ≡ took_of self.old }
        ensures room { room_of self.new ≡ room_of self.old }
        ensures faults { CountsFailure (faults_of self.old) (faults_of self.new) result }
        ensures counted { CountsCall (schedule_of self.old) (schedule_of self.new) }
    {
        if self.schedule.count() {
            return Err(count_failure(&mut self.faults));
        }
        if put_front(&mut self.bytes, self.room, from) {
            Ok(())
        } else {
            Err(count_failure(&mut self.faults))
        }
    }
}

/// Puts the bytes that there is room for behind the others, and says whether these are all.
fn put_front(bytes: &mut Vec<u8>, room: usize, from: &[u8]) -> bool
    requires within { length bytes.old.items ≤ room }
    requires taken { room ≤ vec_capacity bytes.old }
    ensures all { IsTrue result → length from.now ≤ room - length bytes.old.items }
    ensures part { result ≡ false → room - length bytes.old.items < length from.now }
    ensures items { bytes.new.items ≡ bytes.old.items ++ take (room - length bytes.old.items) from.now }
    ensures within { length bytes.new.items ≤ room }
    ensures taken { room ≤ vec_capacity bytes.new }
{
    let count = from.len().min(room - bytes.len());
    bytes.extend_from_slice(&from[..count]).is_ok() && count == from.len()
}
