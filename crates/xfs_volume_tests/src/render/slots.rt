//! What is wanted of the slots of the first chunk of a volume whose root names two files.

ghost use Rattle.std.specs.Prelude.{◌≡◌, ℕ, List, ◌<◌, ◌%◌, MatchOption, IfOk};
ghost use Rattle.xfs_geom.specs.Volumes.{Volume, volume_of};
ghost use Rattle.xfs_render.specs.Slots.{CanFork, CanMake, IsFreshCore};
ghost use Rattle.xfs_volume_tests.specs.Rendered.{AreSmallSlots};

use crate::small_volume::ROOT;
use std::alloc::{AllocError, Global};
use xfs_disk::Word;
use xfs_geom::Geometry;
use xfs_inodebuild::ForkWanted;
use xfs_render::{SlotBase, SlotWanted};
use xfs_volume::Core;

/// The root's entries `a` and `b` as a short form.
const ENTRIES: [u8; 24] = [
    2, 0, 0, 0, 0, 0x80, 1, 0, 0x60, b'a', 1, 0, 0, 0, 0x83, 1, 0, 0x70, b'b', 1, 0, 0, 0, 0x84,
];

/// The extents of both files: block 24, and block 25.
const EXTENTS: [[u8; 16]; 2] = [
    [0, 0, 0, 0, 0, 0, 0, 0, 0, 0, 0, 0, 3, 0, 0, 1],
    [0, 0, 0, 0, 0, 0, 0, 0, 0, 0, 0, 0, 3, 0x20, 0, 1],
];

/// The slots, in order.
pub fn list_slots(alloc: Global, g: &Geometry) -> Result<Vec<SlotWanted>, AllocError>
    ensures { IfOk result (λ slots. AreSmallSlots (volume_of g.now) 64 slots.items) }
{
    let mut slots = Vec::new(alloc);
    for ino in 128..192 {
        slots.push(slot_of(alloc, g, ino)?)?;
    }
    Ok(slots)
}

/// What is wanted of a slot: the root, two system inodes, two files, and else free inodes.
fn slot_of(alloc: Global, g: &Geometry, ino: u64) -> Result<SlotWanted, AllocError>
    ensures number { IfOk result (λ slot. slot.ino ≡ ino) }
    ensures can { IfOk result (λ slot. (old : List ℕ) → CanMake (volume_of g.now) slot old) }
{
    if ino > 132 {
        return Ok(free(ino));
    }
    let fork = fork_of(alloc, ino)?;
    Ok(fresh(g, ino, fork))
}

/// A free inode.
fn free(ino: u64) -> SlotWanted
    ensures number { result.ino ≡ ino }
    ensures can { (v : Volume) (old : List ℕ) → CanMake v result old }
{
    SlotWanted {
        ino,
        base: SlotBase::Free,
        drop_attrs: None,
        fork: None,
        nlink: None,
    }
}

/// An inode in use.
fn fresh(g: &Geometry, ino: u64, fork: Option<ForkWanted>) -> SlotWanted
    requires { MatchOption fork (Unit {0}) (CanFork 0) }
    ensures number { result.ino ≡ ino }
    ensures can { (old : List ℕ) → CanMake (volume_of g.now) result old }
{
    SlotWanted {
        ino,
        base: SlotBase::Fresh(core_of(g, ino)),
        drop_attrs: None,
        fork,
        nlink: None,
    }
}

/// Its core, with an empty fork.
fn core_of(g: &Geometry, ino: u64) -> Core
    ensures { IsFreshCore (volume_of g.now) ino result }
{
    let (mode, flags) = (mode_of(ino), flags_of(ino));
    let (format, nlink) = if ino == 128 { (1, 2) } else { (2, 1) };
    Core {
        mode,
        format,
        nlink,
        size: 0,
        flags,
        ino,
        uuid: g.uuid,
        ..ROOT
    }
}

/// A directory, a system inode, or a regular file.
fn mode_of(ino: u64) -> u16
    ensures { 0 < result }
{
    match ino {
        128 => 0x41ed,
        129 | 130 => 0x8000,
        _ => 0x81a4,
    }
}

/// The flag of the inode of the realtime bitmap.
fn flags_of(ino: u64) -> u16
    ensures { result % 2 ≡ 0 }
{
    if ino == 129 { 4 } else { 0 }
}

/// Its data fork, where it is not empty.
fn fork_of(alloc: Global, ino: u64) -> Result<Option<ForkWanted>, AllocError>
    ensures { IfOk result (λ fork. MatchOption fork (Unit {0}) (CanFork 0)) }
{
    match ino {
        128 => Ok(Some(entries(alloc)?)),
        131 => Ok(Some(extent(alloc, &EXTENTS[0])?)),
        132 => Ok(Some(extent(alloc, &EXTENTS[1])?)),
        _ => Ok(None),
    }
}

/// The fork of the root.
fn entries(alloc: Global) -> Result<ForkWanted, AllocError>
    ensures { IfOk result (λ fork. CanFork 0 fork) }
{
    Ok(ForkWanted {
        format: 1,
        size: 24,
        nblocks: 0,
        nextents: 0,
        bytes: Word::from_slice(alloc, &ENTRIES)?,
    })
}

/// The fork of a file of one block.
fn extent(alloc: Global, bytes: &[u8; 16]) -> Result<ForkWanted, AllocError>
    ensures { IfOk result (λ fork. CanFork 0 fork) }
{
    Ok(ForkWanted {
        format: 2,
        size: 4096,
        nblocks: 1,
        nextents: 1,
        bytes: Word::from_slice(alloc, bytes)?,
    })
}
