//! The first inodes of a volume: the root directory, and the two system inodes behind it (chapter "On-disk Inode").

ghost use Rattle.std.specs.Prelude.{◌≡◌, ◌≤◌, ◌<◌, IfOk};
ghost use Rattle.xfs_geom.specs.Volumes.{volume_of};
ghost use Rattle.xfs_empty.specs.Inodes.{IsFirstSlot, IsRootFork, IsRootSlot, fresh_core, root_core, system_core, system_slot, unused_slot, time_of};

use std::alloc::Global;
use xfs_dirdata::put_short;
use xfs_disk::{NoMemory, Stamp, Word};
use xfs_geom::Geometry;
use xfs_render::{ForkWanted, SlotBase, SlotWanted};
use xfs_volume::Core;

/// The number of the root inode of a new volume: the first of the chunk at blocks 16 to 23.
pub const ROOT_INODE: u64 = 128;

/// The bytes of the short form of a directory without entries.
const EMPTY_FORM: usize = 6;

/// A directory with permissions 0755.
const ROOT_MODE: u16 = 0x41ed;

/// A regular file without permissions.
const SYSTEM_MODE: u16 = 0x8000;

/// The flag of the inode of the realtime bitmap.
const NEW_BITMAP: u16 = 4;

/// The time of a stamp as inodes hold it: seconds in the upper 32 bits, nanoseconds in the lower.
pub fn time_of(stamp: &Stamp) -> u64
    ensures { result ≡ time_of stamp.now }
{
    ((stamp.seconds as u64) << 32) + stamp.nanos as u64
}

/// The core of a fresh inode without blocks, apart from its checksum.
pub fn fresh_core(g: &Geometry, time: u64, generation: u32, ino: u64, mode: u16) -> Core
    ensures { result ≡ fresh_core (volume_of g.now) time generation ino mode }
{
    Core {
        magic: 0x494e,
        mode,
        version: 3,
        format: 2,
        uid: 0,
        gid: 0,
        nlink: 1,
        projid_lo: 0,
        projid_hi: 0,
        atime: time,
        mtime: time,
        ctime: time,
        size: 0,
        nblocks: 0,
        extsize: 0,
        nextents: 0,
        anextents: 0,
        forkoff: 0,
        aformat: 2,
        flags: 0,
        generation,
        next_unlinked: u32::MAX,
        crc: 0,
        changecount: 0,
        lsn: 0,
        flags2: 0,
        cowextsize: 0,
        crtime: time,
        ino,
        uuid: g.uuid,
    }
}

/// The core of the root: a directory in short form without entries.
pub fn root_core(g: &Geometry, stamp: &Stamp) -> Core
    ensures { result ≡ root_core (volume_of g.now) stamp.now }
{
    Core {
        format: 1,
        nlink: 2,
        size: EMPTY_FORM as u64,
        ..fresh_core(g, time_of(stamp), stamp.generation, ROOT_INODE, ROOT_MODE)
    }
}

/// The core of a system inode, an empty regular file: that of the realtime bitmap, which follows the root, or of the
/// realtime summary, which follows that one.
pub fn system_core(g: &Geometry, stamp: &Stamp, ino: u64) -> Core
    ensures { result ≡ system_core (volume_of g.now) stamp.now ino }
{
    let flags = if ino == ROOT_INODE + 1 { NEW_BITMAP } else { 0 };
    Core {
        flags,
        ..fresh_core(g, time_of(stamp), stamp.generation, ino, SYSTEM_MODE)
    }
}

/// The data fork of the root: a short form without entries, whose parent is the root.
fn root_fork(alloc: Global) -> Result<ForkWanted, NoMemory>
    ensures { IfOk result (λ fork. IsRootFork fork) }
{
    let mut form = [0; EMPTY_FORM];
    put_short(ROOT_INODE, &[], &mut form);
    Ok(ForkWanted {
        format: 1,
        size: EMPTY_FORM as u64,
        nblocks: 0,
        nextents: 0,
        bytes: Word::from_slice(alloc, &form)?,
    })
}

/// What is wanted of the slot of the root.
fn root_slot(alloc: Global, g: &Geometry, stamp: &Stamp) -> Result<SlotWanted, NoMemory>
    ensures { IfOk result (λ slot. IsRootSlot (volume_of g.now) stamp.now slot) }
{
    let fork = root_fork(alloc)?;
    Ok(SlotWanted {
        ino: ROOT_INODE,
        base: SlotBase::Fresh(root_core(g, stamp)),
        drop_attrs: None,
        fork: Some(fork),
        nlink: None,
    })
}

/// What is wanted of the slot of a system inode: that of the realtime bitmap, which follows the root, or of the realtime summary.
pub fn system_slot(g: &Geometry, stamp: &Stamp, ino: u64) -> SlotWanted
    ensures { result ≡ system_slot (volume_of g.now) stamp.now ino }
{
    SlotWanted {
        ino,
        base: SlotBase::Fresh(system_core(g, stamp, ino)),
        drop_attrs: None,
        fork: None,
        nlink: None,
    }
}

/// What is wanted of the slot of a free inode.
pub fn unused_slot(ino: u64) -> SlotWanted
    ensures { result ≡ unused_slot ino }
{
    SlotWanted {
        ino,
        base: SlotBase::Free,
        drop_attrs: None,
        fork: None,
        nlink: None,
    }
}

/// What is wanted of a slot of the first chunk: the root, the two system inodes, and else a free inode.
pub fn first_slot(
    alloc: Global,
    g: &Geometry,
    stamp: &Stamp,
    ino: u64,
) -> Result<SlotWanted, NoMemory>
    requires { 128 ≤ ino }
    ensures { IfOk result (λ slot. IsFirstSlot (volume_of g.now) stamp.now ino slot) }
{
    if ino == ROOT_INODE {
        return root_slot(alloc, g, stamp);
    }
    if ino < ROOT_INODE + 3 {
        return Ok(system_slot(g, stamp, ino));
    }
    Ok(unused_slot(ino))
}
