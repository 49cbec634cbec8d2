//! The tree of a volume with one cluster of inodes too many: 65,537 of them are in the trees of its first group.

ghost use Rattle.std.specs.Prelude.{◌<◌};

use crate::refusal::Refusal;
use crate::volume::{Disks, IDENTIFIER};
use xfs_disk::BLOCK_SIZE;
use xfs_word::{put_checksum, put_part, put32, put64};

/// The block of the first chunk.
const FIRST: u32 = 336;

/// The chunks, of which the last has one cluster, and the leaves of their tree, which stand behind its root in block 2.
const CHUNKS: u32 = 32_769;

const LEAVES: u32 = 331;

/// How many chunks a leaf has.
const LEAF: u32 = 99;

/// Writes the tree of chunks, of which no inode is free.
pub fn put_chunks(disks: &mut Disks) -> Result<(), Refusal> {
    let mut root = [0; BLOCK_SIZE];
    for leaf in 0..LEAVES {
        let mut block = [0; BLOCK_SIZE];
        for i in 0..LEAF {
            put_chunk(&mut block, i, LEAF * leaf + i);
        }
        let place = 3 + leaf;
        put32(&mut block, 8, if leaf == 0 { u32::MAX } else { place - 1 });
        put32(
            &mut block,
            12,
            if leaf + 1 == LEAVES {
                u32::MAX
            } else {
                place + 1
            },
        );
        finish(&mut block, place, LEAF);
        disks.put(place as u64, 0, &block)?;
        let at = 56 + 4 * leaf as usize;
        put32(&mut root, at, 8 * FIRST + 64 * LEAF * leaf);
        put32(&mut root, at + 2020, place);
    }
    put64(&mut root, 8, u64::MAX);
    finish(&mut root, 2, 0x1_0000 + LEAVES);
    disks.put(2, 0, &root)
}

/// Writes the record of a chunk at its place in a leaf.
fn put_chunk(block: &mut [u8; BLOCK_SIZE], i: u32, chunk: u32)
    requires place { i < LEAF }
    requires chunk { chunk < CHUNKS }
{
    let last = chunk + 1 == CHUNKS;
    let at = 56 + 16 * i as usize;
    put32(block, at, 8 * FIRST + 64 * chunk);
    put32(block, at + 4, if last { 0xff00_2000 } else { 0x4000 });
}

/// Writes the other fields of the header of a block of the tree of chunks.
fn finish(block: &mut [u8; BLOCK_SIZE], place: u32, level_and_count: u32) {
    put32(block, 0, 0x4941_4233);
    put32(block, 4, level_and_count);
    put64(block, 16, 8 * place as u64);
    put_part(block, 32, &IDENTIFIER);
    put_checksum(block, 52);
}
