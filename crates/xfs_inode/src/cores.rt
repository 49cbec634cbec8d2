//! The core of an inode, read from a slot.

ghost use Rattle.std.specs.Prelude.{◌≡◌, ℕ, length};
ghost use Rattle.xfs_word.specs.Field.{part_of};
ghost use Rattle.xfs_inode.specs.Cores.{stated_core};
ghost use Rattle.xfs_inode.specs.Private.Parts.{back_of, front_of, joined_core, middle_of};

use crate::layouts::inode::{
    AFORMAT, ANEXTENTS, ATIME, CHANGECOUNT, COWEXTSIZE, CRC, CRTIME, CTIME, EXTSIZE, FLAGS, FLAGS2,
    FORKOFF, FORMAT, GENERATION, GID, INO, LSN, MAGIC, MODE, MTIME, NBLOCKS, NEXT_UNLINKED,
    NEXTENTS, NLINK, PROJID_HI, PROJID_LO, SIZE, UID, UUID, VERSION,
};
use xfs_volume::Core;
use xfs_word::{get8, get16, get32, get64, part, stored_checksum};

/// What a file is and whose, as a slot states it.
#[derive(Drop)]
struct Front {
    magic: u16,
    mode: u16,
    version: u8,
    format: u8,
    uid: u32,
    gid: u32,
    nlink: u32,
    projid_lo: u16,
    projid_hi: u16,
}

/// The times of a file, its size and its forks, as a slot states them.
#[derive(Drop)]
struct Middle {
    atime: u64,
    mtime: u64,
    ctime: u64,
    size: u64,
    nblocks: u64,
    extsize: u32,
    nextents: u32,
    anextents: u16,
    forkoff: u8,
    aformat: u8,
}

/// What else a slot states of a file.
#[derive(Drop)]
struct Back {
    flags: u16,
    generation: u32,
    next_unlinked: u32,
    crc: u32,
    changecount: u64,
    lsn: u64,
    flags2: u64,
    cowextsize: u32,
    crtime: u64,
    ino: u64,
}

/// The values that a slot states, before any of them is judged.
pub fn stated(slot: &[u8]) -> Core
    requires { length slot.now ≡ 512 }
    ensures { result ≡ stated_core slot.now }
{
    let front = stated_front(slot);
    let middle = stated_middle(slot);
    let back = stated_back(slot);
    joined(&front, &middle, &back, stated_uuid(slot))
}

/// The values of all parts.
fn joined(front: &Front, middle: &Middle, back: &Back, uuid: [u8; 16]) -> Core
    ensures { result ≡ joined_core front.now middle.now back.now uuid }
{
    Core {
        magic: front.magic,
        mode: front.mode,
        version: front.version,
        format: front.format,
        uid: front.uid,
        gid: front.gid,
        nlink: front.nlink,
        projid_lo: front.projid_lo,
        projid_hi: front.projid_hi,
        atime: middle.atime,
        mtime: middle.mtime,
        ctime: middle.ctime,
        size: middle.size,
        nblocks: middle.nblocks,
        extsize: middle.extsize,
        nextents: middle.nextents,
        anextents: middle.anextents,
        forkoff: middle.forkoff,
        aformat: middle.aformat,
        flags: back.flags,
        generation: back.generation,
        next_unlinked: back.next_unlinked,
        crc: back.crc,
        changecount: back.changecount,
        lsn: back.lsn,
        flags2: back.flags2,
        cowextsize: back.cowextsize,
        crtime: back.crtime,
        ino: back.ino,
        uuid,
    }
}

/// What a file is and whose.
fn stated_front(slot: &[u8]) -> Front
    requires { length slot.now ≡ 512 }
    ensures { result ≡ front_of (stated_core slot.now) }
{
    Front {
        magic: get16(slot, MAGIC.offset),
        mode: get16(slot, MODE.offset),
        version: get8(slot, VERSION.offset),
        format: get8(slot, FORMAT.offset),
        uid: get32(slot, UID.offset),
        gid: get32(slot, GID.offset),
        nlink: get32(slot, NLINK.offset),
        projid_lo: get16(slot, PROJID_LO.offset),
        projid_hi: get16(slot, PROJID_HI.offset),
    }
}

/// The times of a file, its size and its forks.
fn stated_middle(slot: &[u8]) -> Middle
    requires { length slot.now ≡ 512 }
    ensures { result ≡ middle_of (stated_core slot.now) }
{
    Middle {
        atime: get64(slot, ATIME.offset),
        mtime: get64(slot, MTIME.offset),
        ctime: get64(slot, CTIME.offset),
        size: get64(slot, SIZE.offset),
        nblocks: get64(slot, NBLOCKS.offset),
        extsize: get32(slot, EXTSIZE.offset),
        nextents: get32(slot, NEXTENTS.offset),
        anextents: get16(slot, ANEXTENTS.offset),
        forkoff: get8(slot, FORKOFF.offset),
        aformat: get8(slot, AFORMAT.offset),
    }
}

/// What else there is of a file.
fn stated_back(slot: &[u8]) -> Back
    requires { length slot.now ≡ 512 }
    ensures { result ≡ back_of (stated_core slot.now) }
{
    Back {
        flags: get16(slot, FLAGS.offset),
        generation: get32(slot, GENERATION.offset),
        next_unlinked: get32(slot, NEXT_UNLINKED.offset),
        crc: stored_checksum(slot, CRC.offset),
        changecount: get64(slot, CHANGECOUNT.offset),
        lsn: get64(slot, LSN.offset),
        flags2: get64(slot, FLAGS2.offset),
        cowextsize: get32(slot, COWEXTSIZE.offset),
        crtime: get64(slot, CRTIME.offset),
        ino: get64(slot, INO.offset),
    }
}

/// The identity that a slot states.
fn stated_uuid(slot: &[u8]) -> [u8; 16]
    requires { length slot.now ≡ 512 }
    ensures { result ≡ part_of slot.now 160 16 }
{
    let mut uuid = [0; 16];
    uuid.copy_from_slice(part(slot, UUID.offset, UUID.width));
    uuid
}
