//! Records of the inode trees (chapter "AG Inode Management").

ghost use Rattle.std.specs.Prelude.{◌≡◌, ◌+◌, ◌*◌, ◌/◌, ◌<◌, ◌≤◌, bit_or, length, IsTrue};
ghost use Rattle.std.specs.Option.{option_copied};
ghost use Rattle.xfs_geom.specs.Volumes.{volume_of};
ghost use Rattle.xfs_kinds.specs.InodeTrees.{ascends_inode, chunk_bytes, chunk_of_bytes, fits_chunk, has_count, are_free_of_use, is_block_free_of_use, is_chunk, is_chunk_clear, is_first_inode, is_holemask, is_missing, missing_bits, startino_bytes};

use crate::groups::lies_in_group;
use crate::layouts::inode_chunk::{COUNT, FREE, FREECOUNT, HOLEMASK, STARTINO};
use xfs_geom::{Geometry, InoRec};
use xfs_word::{get8, get16, get32, get64, put8, put16, put32, put64};

/// The mask of a chunk whose first 32 inodes are missing.
const FIRST_HALF: u16 = 0x00ff;

/// The mask of a chunk whose last 32 inodes are missing.
const SECOND_HALF: u16 = 0xff00;

/// The chunk in its 16 bytes.
pub fn read_chunk(bytes: &[u8]) -> InoRec
    requires { length bytes.now ≡ 16 }
    ensures { result ≡ chunk_of_bytes bytes.now }
{
    InoRec {
        startino: get32(bytes, STARTINO.offset),
        holemask: get16(bytes, HOLEMASK.offset),
        count: get8(bytes, COUNT.offset),
        freecount: get8(bytes, FREECOUNT.offset),
        free: get64(bytes, FREE.offset),
    }
}

/// Writes a chunk into its 16 bytes, with the free bits of missing inodes set.
pub fn put_chunk(chunk: &InoRec, bytes: &mut [u8])
    requires size { length bytes.old ≡ 16 }
    requires fits { IsTrue (fits_chunk chunk.now) }
    ensures { bytes.new ≡ chunk_bytes chunk.now }
{
    put32(bytes, STARTINO.offset, chunk.startino);
    put16(bytes, HOLEMASK.offset, chunk.holemask);
    put8(bytes, COUNT.offset, chunk.count);
    put8(bytes, FREECOUNT.offset, chunk.freecount);
    put64(
        bytes,
        FREE.offset,
        chunk.free | missing_bits(chunk.holemask),
    );
}

/// Writes the number of a first inode into its 4 bytes.
pub fn put_startino(startino: u32, bytes: &mut [u8])
    requires { length bytes.old ≡ 4 }
    ensures { bytes.new ≡ startino_bytes startino }
{
    put32(bytes, STARTINO.offset, startino);
}

/// Whether these inodes are those of eight blocks of the group from a multiple of eight on, behind its
/// first eight blocks, and no block of them but the missing ones has a fixed use.
pub fn is_chunk(g: &Geometry, ag: u32, chunk: &InoRec) -> bool
    ensures { result ≡ is_chunk (volume_of g.now) ag chunk.now }
{
    fits_chunk(*chunk)
        && has_count(chunk.holemask, chunk.count)
        && is_first_inode(chunk.startino)
        && lies_in_group(g, ag as u64, chunk.startino as u64 / 8, 8)
        && is_chunk_clear(g, ag, chunk)
}

/// Whether a chunk begins behind the one before it.
pub fn ascends_inode(before: Option<&InoRec>, chunk: &InoRec) -> bool
    ensures { result ≡ ascends_inode (option_copied before.entry) chunk.now }
{
    match before {
        Some(before) => before.startino < chunk.startino,
        None => true,
    }
}

/// A bit for each of 64 inodes of a chunk with this mask, set where it is missing.
#[tactic(auto, unfolding(crate::specs::InodeTrees::four_each))]
pub fn missing_bits(holemask: u16) -> u64
    requires { IsTrue (is_holemask holemask) }
    ensures { result ≡ missing_bits holemask }
{
    match holemask {
        FIRST_HALF => 0xffff_ffff,
        SECOND_HALF => 0xffff_ffff_0000_0000,
        _ => 0,
    }
}

/// Whether a bit of a chunk's mask of missing inodes is set; it stands for four inodes.
pub fn is_missing(holemask: u16, bit: u32) -> bool
    requires { bit < 16 }
    ensures { result ≡ is_missing holemask (4 * bit) }
{
    holemask >> bit & 1 == 1
}

/// Whether a chunk can be put: its mask is one that the trees have.
fn fits_chunk(chunk: InoRec) -> bool
    ensures { result ≡ fits_chunk chunk }
{
    is_holemask(chunk.holemask)
}

/// Whether a chunk can begin with an inode: its AG block is a multiple of eight, and not the group's first.
fn is_first_inode(startino: u32) -> bool
    ensures { result ≡ is_first_inode startino }
{
    startino % 64 == 0 && 64 <= startino
}

/// Whether all inodes are there, or the first half of them is missing, or the second.
fn is_holemask(holemask: u16) -> bool
    ensures { result ≡ is_holemask holemask }
{
    holemask == 0 || holemask == FIRST_HALF || holemask == SECOND_HALF
}

/// Whether a chunk has as many inodes as its mask leaves.
fn has_count(holemask: u16, count: u8) -> bool
    ensures { result ≡ has_count holemask count }
{
    count == if holemask == 0 { 64 } else { 32 }
}

/// Whether no block of the chunk but the missing ones has a fixed use.
fn is_chunk_clear(g: &Geometry, ag: u32, chunk: &InoRec) -> bool
    requires group { ag < g.now.agcount }
    requires inside { ag * g.now.agblocks + (chunk.now.startino / 8 + 8) ≤ g.now.dblocks }
    ensures { result ≡ is_chunk_clear (volume_of g.now) ag chunk.now }
{
    let start = g.start_of_group(ag) + chunk.startino as u64 / 8;
    are_free_of_use(g, chunk.holemask, start)
}

/// Whether each block of the chunk at a block is missing, or has no fixed use.
fn are_free_of_use(g: &Geometry, holemask: u16, start: u64) -> bool
    requires { start + 8 ≤ g.now.dblocks }
    ensures { result ≡ are_free_of_use (volume_of g.now) holemask start }
{
    for block in 0..8 {
        if !is_block_free_of_use(g, holemask, start, block) {
            return false;
        }
    }
    true
}

/// Whether a block of a chunk is missing, or has no fixed use.
fn is_block_free_of_use(g: &Geometry, holemask: u16, start: u64, block: u64) -> bool
    requires block { block < 8 }
    requires inside { start + block < g.now.dblocks }
    ensures { result ≡ is_block_free_of_use (volume_of g.now) holemask start block }
{
    holemask >> (2 * block) & 1 == 1 || !g.is_fixed(start + block)
}
