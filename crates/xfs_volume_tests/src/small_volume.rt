//! The small volume that these tests read: two groups of 1024 blocks, the root's chunk at blocks 16 to 23, the log at AG blocks 6 to 517 of the
//! second group.

ghost use Rattle.std.specs.Prelude.{◌≡◌};

use crate::checks::must;
use std::process::Abort;
use xfs_disk::{BLOCK_SIZE, Disk};
use xfs_geom::Geometry;
use xfs_memory::MemoryDisk;
use xfs_volume::Core;

/// The root: a directory in short form.
pub const ROOT: Core = Core {
    magic: 0x494e,
    mode: 0x41ed,
    version: 3,
    format: 1,
    uid: 0,
    gid: 0,
    nlink: 2,
    projid_lo: 0,
    projid_hi: 0,
    atime: 0,
    mtime: 0,
    ctime: 0,
    size: 15,
    nblocks: 0,
    extsize: 0,
    nextents: 0,
    anextents: 0,
    forkoff: 0,
    aformat: 2,
    flags: 0,
    generation: 0,
    next_unlinked: u32::MAX,
    crc: 0,
    changecount: 0,
    lsn: 0,
    flags2: 0,
    cowextsize: 0,
    crtime: 0,
    ino: 128,
    uuid: [7; 16],
};

/// The volume of this identifier.
pub fn volume(identifier: [u8; 16]) -> Geometry
    ensures dblocks { result.dblocks ≡ 2048 }
    ensures identifier { result.uuid ≡ identifier }
{
    Geometry {
        dblocks: 2048,
        agblocks: 1024,
        agcount: 2,
        agblklog: 10,
        log: 1030,
        logblocks: 512,
        rootino: 128,
        logsectlog: 0,
        uuid: identifier,
    }
}

/// Writes a block of a disk.
pub fn put(rt: &impl Abort, disk: &mut MemoryDisk, place: u64, block: &[u8; BLOCK_SIZE]) {
    assert!(rt; matches!(disk.blocks(), Ok(count) if place < count));
    must(rt, disk.write(place, block));
}
