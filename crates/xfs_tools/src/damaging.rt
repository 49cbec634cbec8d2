//! `mkfs.xfs -G`: what becomes of a volume with generated files before it is repaired.

ghost use Rattle.std.specs.Prelude.{◌≡◌, ◌<◌, ◌≤◌, ◌⊎◌, ℕ, [], replicate, IfErr, IfOk, OnErr, OnOk, Some};
ghost use Rattle.std.specs.Option.{ForSome};
ghost use Rattle.xfs_disk.specs.Blocks.{Image};
ghost use Rattle.xfs_disk.specs.Faults.{HasCause, Rose};
ghost use Rattle.xfs_disk.specs.Reads.{OnlyReads};
ghost use Rattle.xfs_mkfs.specs.Roots.{inode_root};
ghost use Rattle.xfs_writing.specs.Counting.{CountsWrites};
ghost use Rattle.xfs_writing.specs.Stopped.{IsStopped, LeavesJust};
ghost use Rattle.xfs_writing.specs.Writing.{IsPartly, written};
ghost use Rattle.xfs_tools.specs.Damaging.{IsDamaging, IsWithin, damage_answer, zeros_at};

use crate::answer::Answer;
use std::alloc::Global;
use xfs_collections::BlockList;
use xfs_disk::{BLOCK_SIZE, Disk, Failed, NoMemory};
use xfs_word::get32;
use xfs_writing::{Row, write_parts};

/// Where block 0 has the block of the root of the inode tree of group 0: byte 20 of its third sector.
const INODE_ROOT: usize = 1044;

/// Why the block was not written, or not kept.
#[derive(Clone, Copy)]
pub(crate) enum DamageFault {
    /// A read failed, or what was read states no block of the disk; so many reads have failed.
    ReadFault { faults: u64 },
    /// A write or a sync failed once so many blocks were written: none, or the one.
    WriteFault { written: u64 },
    /// Memory is wanting; nothing was written.
    NoMemory,
}

/// Writes the root of the inode tree of group 0 as zeros, between two syncs, and gives its block.
pub(crate) fn damage<D: Disk>(alloc: Global, disk: &mut D) -> Result<u64, DamageFault>
    ensures ended { IsDamaging D.holds D.size D.faults D.write_faults D.writes D.tells_stops D.moment D.may_leave D.left_since disk.old disk.new result }
    ensures size { D.size disk.new ≡ D.size disk.old }
{
    let place = match find_root(disk) {
        Ok(place) => place,
        Err(Failed) => {
            return Err(DamageFault::ReadFault {
                faults: disk.faults(),
            });
        }
    };
    let zeros = match BlockList::zeros(alloc, 1) {
        Ok(zeros) => zeros,
        Err(NoMemory) => return Err(DamageFault::NoMemory),
    };
    match write_zeros(disk, &zeros, place) {
        Ok(()) => Ok(place),
        Err(written) => Err(DamageFault::WriteFault { written }),
    }
}

/// Writes the first block of a bank there, which is zeros, between two syncs.
fn write_zeros<D: Disk>(disk: &mut D, zeros: &BlockList, place: u64) -> Result<(), u64>
    requires zeros { zeros.now ≡ replicate 1 (replicate 4096 0) }
    requires inside { place < D.size disk.old }
    ensures done { OnOk result (ForSome (D.holds disk.old) (λ image. D.holds disk.new ≡ Some (written (zeros_at place) image))) }
    ensures partly { IfErr result (λ n. ForSome (D.holds disk.old) (λ image. IsPartly (zeros_at place) image n (D.holds disk.new))) }
    ensures most { IfErr result (λ n. n ≤ 1) }
    ensures counted { CountsWrites 1 (D.writes disk.old) (D.writes disk.new) result }
    ensures size { D.size disk.new ≡ D.size disk.old }
    ensures cause { HasCause (D.write_faults disk.old) (D.write_faults disk.new) result }
    ensures kept { OnOk result (D.tells_stops disk.old → ForSome (D.holds disk.new) (LeavesJust (D.may_leave disk.new))) }
    ensures stops { D.tells_stops disk.old → ForSome (D.holds disk.old) (λ image.
        (t : ℕ) (stopped : Image) → t ≤ D.moment disk.old → D.left_since disk.new t stopped
        → D.left_since disk.old t stopped ⊎ IsStopped [] (zeros_at place) image stopped) }
    ensures later { D.tells_stops disk.old → D.moment disk.old ≤ D.moment disk.new }
    ensures tells { D.tells_stops disk.old → D.tells_stops disk.new }
{
    let row = Row {
        at: place,
        index: 0,
    };
    write_parts(disk, zeros, &[], &[row])
}

/// The block of the root of the inode tree of group 0, as the header in block 0 states it; a failure where that is no block of the disk.
fn find_root<D: Disk>(disk: &mut D) -> Result<u64, Failed>
    ensures inside { IfOk result (λ place. place < D.size disk.old) }
    ensures root { IfOk result (λ place. ForSome (D.holds disk.old) (λ image. place ≡ inode_root image)) }
    ensures cause { OnErr result (Rose (D.faults disk.old) (D.faults disk.new) ⊎ ForSome (D.holds disk.old) (λ image. D.size disk.old ≤ inode_root image)) }
    ensures disk { OnlyReads D.size D.holds D.write_faults D.writes D.tells_stops D.moment D.may_leave D.left_since disk.old disk.new }
{
    let blocks = match count_blocks(disk) {
        Ok(blocks) => blocks,
        Err(Failed) => return Err(Failed),
    };
    if blocks == 0 {
        return Err(Failed);
    }
    match read_root(disk) {
        Ok(root) => within(root, blocks),
        Err(Failed) => Err(Failed),
    }
}

/// How many blocks the disk has.
fn count_blocks<D: Disk>(disk: &mut D) -> Result<u64, Failed>
    ensures count { IfOk result (λ n. n ≡ D.size disk.old) }
    ensures cause { HasCause (D.faults disk.old) (D.faults disk.new) result }
    ensures disk { OnlyReads D.size D.holds D.write_faults D.writes D.tells_stops D.moment D.may_leave D.left_since disk.old disk.new }
{
    disk.blocks()
}

/// The block of that root, as the header states it.
fn read_root<D: Disk>(disk: &mut D) -> Result<u64, Failed>
    requires some { 0 < D.size disk.old }
    ensures root { IfOk result (λ root. ForSome (D.holds disk.old) (λ image. root ≡ inode_root image)) }
    ensures cause { HasCause (D.faults disk.old) (D.faults disk.new) result }
    ensures disk { OnlyReads D.size D.holds D.write_faults D.writes D.tells_stops D.moment D.may_leave D.left_since disk.old disk.new }
{
    let mut block = [0; BLOCK_SIZE];
    match disk.read(0, &mut block) {
        Ok(()) => Ok(get32(&block, INODE_ROOT) as u64),
        Err(Failed) => Err(Failed),
    }
}

/// A block that is one of so many.
fn within(root: u64, blocks: u64) -> Result<u64, Failed>
    ensures { IsWithin root blocks result }
{
    if root < blocks { Ok(root) } else { Err(Failed) }
}

/// The answer where the block was not written, or not kept.
pub(crate) fn damage_answer(fault: DamageFault) -> Answer
    ensures { result ≡ damage_answer fault }
{
    match fault {
        DamageFault::ReadFault { faults } => Answer::ReadFault { faults },
        DamageFault::WriteFault { written } => Answer::WriteFault { written },
        DamageFault::NoMemory => Answer::NoMemory,
    }
}
