//! A disk in memory, whose calls can be made to fail.

ghost use Rattle.std.specs.Prelude.{◌≡◌, ◌+◌, ◌*◌, ◌^◌, ◌<◌, ◌≤◌, [], length, replicate, Some, None, IsTrue, IsErr, IfOk, OnOk, OnErr, ◌↔◌, slice_get, slice_set};
ghost use Rattle.std.specs.List.{All, concat};
ghost use Rattle.xfs_disk.specs.Counts.{CountsDone, CountsFailure};
ghost use Rattle.xfs_memory.specs.Schedule.{after_write};
ghost use Rattle.xfs_disk.specs.Memory.{with_block};
ghost use Rattle.xfs_disk.specs.MemoryImage.{is_told_image};

use crate::schedule::Schedule;
use std::alloc::Global;
use xfs_disk::{BLOCK_SIZE, Disk, Failed, NoMemory, count_failure};

/// A disk in memory. It tells its contents, and not its stops.
#[derive(Drop)]
pub struct MemoryDisk {
    bytes: Vec<u8>,
    blocks: u64,
    faults: u64,
    write_faults: u64,
    reads: u64,
    writes: u64,
    schedule: Schedule,
    /// After how many more writes every call fails.
    writes_left: Option<u64>,
    ghost whole: { length bytes.items ≡ blocks * 4096 },
    ghost bytes_fit: { All (λ b. b < 256) bytes.items },
    ghost quiet: { schedule.failing.items ≡ [] → writes_left ≡ None → (faults ≡ 0) × (write_faults ≡ 0) },
}

impl MemoryDisk {
    ghost use Rattle.xfs_memory.specs.MemoryDisk.{image_of, schedule_of, stop_of, HasStopped, FailsNext, KeepsDisk};
    ghost use Rattle.xfs_memory.specs.Schedule.{calls_made, failing_calls, CountsCall, AddsCall, sooner};

    /// A disk of so many blocks of zeros, with no call that is to fail.
    pub fn make(alloc: Global, blocks: u64) -> Result<MemoryDisk, NoMemory>
        ensures zero { IfOk result (λ disk. ⟦<MemoryDisk as Disk>⟧.holds disk ≡ Some (replicate blocks (replicate 4096 0))) }
        ensures size { IfOk result (λ disk. ⟦<MemoryDisk as Disk>⟧.size disk ≡ blocks) }
        ensures faults { IfOk result (λ disk. ⟦<MemoryDisk as Disk>⟧.faults disk ≡ 0) }
        ensures write_faults { IfOk result (λ disk. ⟦<MemoryDisk as Disk>⟧.write_faults disk ≡ 0) }
        ensures reads { IfOk result (λ disk. ⟦<MemoryDisk as Disk>⟧.reads disk ≡ 0) }
        ensures writes { IfOk result (λ disk. ⟦<MemoryDisk as Disk>⟧.writes disk ≡ 0) }
        ensures calls { IfOk result (λ disk. calls_made (schedule_of disk) ≡ 0) }
        ensures failing { IfOk result (λ disk. failing_calls (schedule_of disk) ≡ []) }
        ensures stop { IfOk result (λ disk. stop_of disk ≡ None) }
        ensures fits { OnOk result (blocks * 4096 < 2 ^ 64) }
    {
        let Some(size) = blocks.checked_mul(BLOCK_SIZE as u64) else {
            return Err(NoMemory);
        };
        match vec![in alloc; 0; size as usize] {
            Ok(bytes) => Ok(MemoryDisk {
                bytes,
                blocks,
                faults: 0,
                write_faults: 0,
                reads: 0,
                writes: 0,
                schedule: Schedule::new(alloc),
                writes_left: None,
            }),
            Err(_) => Err(NoMemory),
        }
    }

    /// Makes the read, write or sync of this number fail, counted from 1 from now on.
    pub fn fail(&mut self, call: u64) -> Result<(), NoMemory>
        ensures added { AddsCall call (schedule_of self.old) (schedule_of self.new) result }
        ensures stop { stop_of self.new ≡ stop_of self.old }
        ensures disk { KeepsDisk self.old self.new }
    {
        self.schedule.fail(call)
    }

    /// Makes every later call fail and change nothing once so many writes were done from now on.
    pub fn stop_after(&mut self, writes: u64)
        ensures stop { stop_of self.new ≡ sooner (stop_of self.old) writes }
        ensures schedule { schedule_of self.new ≡ schedule_of self.old }
        ensures disk { KeepsDisk self.old self.new }
    {
        self.writes_left = match self.writes_left {
            Some(left) => Some(left.min(writes)),
            None => Some(writes),
        };
    }

    /// The bytes of the disk, block after block.
    pub fn image(&self) -> &[u8]
        ensures bytes { result.now ≡ concat (image_of self.now) }
        ensures size { length result.now ≡ ⟦<MemoryDisk as Disk>⟧.size self.now * 4096 }
    {
        self.bytes.as_slice()
    }

    /// Whether every call fails now.
    fn is_stopped(&self) -> bool
        ensures { IsTrue result ↔ HasStopped self.now }
    {
        self.writes_left == Some(0)
    }

    /// Counts a read, write or sync, and says whether it is to fail.
    fn is_failing(&mut self) -> bool
        ensures due { IsTrue result ↔ FailsNext self.old }
        ensures counted { CountsCall (schedule_of self.old) (schedule_of self.new) }
        ensures stop { stop_of self.new ≡ stop_of self.old }
        ensures disk { KeepsDisk self.old self.new }
    {
        let failing = self.schedule.count();
        failing || self.is_stopped()
    }
}

impl Disk for MemoryDisk {
    ghost use Rattle.xfs_memory.specs.MemoryDisk.{size_of, image_of, faults_of, write_faults_of, reads_of, writes_of, schedule_of, stop_of, HasStopped, FailsNext};
    ghost use Rattle.xfs_memory.specs.Schedule.{CountsCall};

    ghost size = { size_of };

    ghost holds = { λ disk. Some (image_of disk) };

    ghost faults = { faults_of };

    ghost write_faults = { write_faults_of };

    ghost reads = { reads_of };

    ghost writes = { writes_of };

    fn faults(&self) -> u64 {
        self.faults
    }

    /// Fails exactly where the disk is stopped.
    fn blocks(&mut self) -> Result<u64, Failed>
        ensures fails { IsErr result ↔ HasStopped self.old }
        ensures count { IfOk result (λ n. n ≡ size_of self.old) }
        ensures size { size_of self.new ≡ size_of self.old }
        ensures image { image_of self.new ≡ image_of self.old }
        ensures faults { CountsFailure (faults_of self.old) (faults_of self.new) result }
        ensures write_faults { write_faults_of self.new ≡ write_faults_of self.old }
        ensures reads { reads_of self.new ≡ reads_of self.old }
        ensures writes { writes_of self.new ≡ writes_of self.old }
        ensures schedule { schedule_of self.new ≡ schedule_of self.old }
        ensures stop { stop_of self.new ≡ stop_of self.old }
    {
        if self.is_stopped() {
            Err(count_failure(&mut self.faults))
        } else {
            Ok(self.blocks)
        }
    }

    fn read(&mut self, at: u64, into: &mut [u8]) -> Result<(), Failed>
        requires inside { at < size_of self.old }
        requires whole { length into.old ≡ 4096 }
        ensures fails { IsErr result ↔ FailsNext self.old }
        ensures bytes { OnOk result (slice_get (image_of self.old) at ≡ Some into.new) }
        ensures untouched { OnErr result (into.new ≡ into.old) }
        ensures size { size_of self.new ≡ size_of self.old }
        ensures image { image_of self.new ≡ image_of self.old }
        ensures faults { CountsFailure (faults_of self.old) (faults_of self.new) result }
        ensures write_faults { write_faults_of self.new ≡ write_faults_of self.old }
        ensures reads { CountsDone (reads_of self.old) (reads_of self.new) result }
        ensures writes { writes_of self.new ≡ writes_of self.old }
        ensures counted { CountsCall (schedule_of self.old) (schedule_of self.new) }
        ensures stop { stop_of self.new ≡ stop_of self.old }
    {
        if self.is_failing() {
            return Err(count_failure(&mut self.faults));
        }
        let start = at as usize * BLOCK_SIZE;
        into.copy_from_slice(&self.bytes[start..start + BLOCK_SIZE]);
        self.reads = self.reads.saturating_add(1);
        Ok(())
    }

    /// Writes the block of number `at`. After `Failed` it is as before.
    fn write(&mut self, at: u64, from: &[u8]) -> Result<(), Failed>
        requires inside { at < size_of self.old }
        requires whole { length from.now ≡ 4096 }
        ensures fails { IsErr result ↔ FailsNext self.old }
        ensures written { OnOk result (image_of self.new ≡ slice_set (image_of self.old) at from.now) }
        ensures old { OnErr result (image_of self.new ≡ image_of self.old) }
        ensures size { size_of self.new ≡ size_of self.old }
        ensures faults { faults_of self.new ≡ faults_of self.old }
        ensures write_faults { CountsFailure (write_faults_of self.old) (write_faults_of self.new) result }
        ensures reads { reads_of self.new ≡ reads_of self.old }
        ensures writes { CountsDone (writes_of self.old) (writes_of self.new) result }
        ensures counted { CountsCall (schedule_of self.old) (schedule_of self.new) }
        ensures stop { OnOk result (stop_of self.new ≡ after_write (stop_of self.old)) }
        ensures stop_stays { OnErr result (stop_of self.new ≡ stop_of self.old) }
    {
        if self.is_failing() {
            return Err(count_failure(&mut self.write_faults));
        }
        put_block(&mut self.bytes, at as usize, from);
        self.writes_left = less_one(self.writes_left);
        self.writes = self.writes.saturating_add(1);
        Ok(())
    }

    fn sync(&mut self) -> Result<(), Failed>
        ensures fails { IsErr result ↔ FailsNext self.old }
        ensures size { size_of self.new ≡ size_of self.old }
        ensures image { image_of self.new ≡ image_of self.old }
        ensures faults { faults_of self.new ≡ faults_of self.old }
        ensures write_faults { CountsFailure (write_faults_of self.old) (write_faults_of self.new) result }
        ensures reads { reads_of self.new ≡ reads_of self.old }
        ensures writes { writes_of self.new ≡ writes_of self.old }
        ensures counted { CountsCall (schedule_of self.old) (schedule_of self.new) }
        ensures stop { stop_of self.new ≡ stop_of self.old }
    {
        if self.is_failing() {
            Err(count_failure(&mut self.write_faults))
        } else {
            Ok(())
        }
    }

    ghost shape = { λ disk image told. is_told_image disk.blocks disk.bytes.items image disk.whole disk.bytes_fit told };

    ghost counts_now = { λ disk t image tells. absurd tells };

    ghost only_now = { λ disk image tells. absurd tells };
}

/// How many writes are left after one more.
fn less_one(writes_left: Option<u64>) -> Option<u64>
    ensures { result ≡ after_write writes_left }
{
    match writes_left {
        Some(left) => Some(left.saturating_sub(1)),
        None => None,
    }
}

/// Puts a block in the place of the one of number `at`.
fn put_block(bytes: &mut [u8], at: usize, from: &[u8])
    requires inside { at * 4096 + 4096 ≤ length bytes.old }
    requires whole { length from.now ≡ 4096 }
    ensures { bytes.new ≡ with_block bytes.old at from.now }
{
    let start = at * BLOCK_SIZE;
    bytes[start..start + BLOCK_SIZE].copy_from_slice(from);
}
