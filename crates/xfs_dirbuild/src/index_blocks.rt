//! The index blocks of the leaf form and of the tree of the node form, written.

ghost use Rattle.std.specs.Prelude.{◌≡◌, ◌+◌, ◌*◌, ◌<◌, ◌≤◌, length, All};
ghost use Rattle.xfs_word.specs.Field.{zeros};
ghost use Rattle.xfs_dirindex.specs.IndexTree.{magic_of_level};
ghost use Rattle.xfs_dirbuild.specs.Blocks.{index_block, leaf_block};
ghost use Rattle.xfs_dirbuild.specs.Index.{IsPointer, IsIndexBlock, IsLeafBlock};

use crate::writing::{put_pairs, put_values};
use xfs_dirindex::Pair;
use xfs_dirindex::layouts::index_block::{
    BACK, COUNT, FORW, HEADER_SIZE, LEAF_MAGIC, MAGIC, NODE_LEAF_MAGIC, NODE_MAGIC, STALE,
    VALUE_COUNT, VALUE_SIZE,
};
use xfs_word::{put16, put32};

/// Writes a block of a level of the tree; `before` and `next` are the file blocks of its neighbours, 0 at the
/// ends. Leaves are of level 0 and have no stale pairs.
pub fn put_index(level: u16, pairs: &[Pair], before: u32, next: u32, block: &mut [u8])
    requires pointers { All IsPointer pairs.now }
    requires most { length pairs.now ≤ 504 }
    requires long { length block.old ≡ 4096 }
    requires blank { block.old ≡ zeros 4096 }
    ensures stands { IsIndexBlock level before next pairs.now block.new }
    ensures bytes { block.new ≡ index_block level before next pairs.now }
{
    put32(block, FORW.offset, next);
    put32(block, BACK.offset, before);
    put16(block, MAGIC.offset, magic_of(level));
    put16(block, COUNT.offset, pairs.len() as u16);
    put16(block, STALE.offset, level);
    put_pairs(pairs, HEADER_SIZE, block);
}

/// The magic number of the blocks of a level.
fn magic_of(level: u16) -> u16
    ensures { result ≡ magic_of_level level }
{
    if level == 0 {
        NODE_LEAF_MAGIC
    } else {
        NODE_MAGIC
    }
}

/// Writes the index block of the leaf form, with the value of each data block.
pub fn put_leaf(pairs: &[Pair], values: &[u16], block: &mut [u8])
    requires pointers { All IsPointer pairs.now }
    requires fit { 64 + 8 * length pairs.now + 2 * length values.now + 4 ≤ 4096 }
    requires long { length block.old ≡ 4096 }
    requires blank { block.old ≡ zeros 4096 }
    ensures stands { IsLeafBlock pairs.now values.now block.new }
    ensures bytes { block.new ≡ leaf_block pairs.now values.now }
{
    put_values(
        values,
        VALUE_COUNT.offset - VALUE_SIZE * values.len(),
        block,
    );
    put32(block, FORW.offset, 0);
    put32(block, BACK.offset, 0);
    put16(block, MAGIC.offset, LEAF_MAGIC);
    put16(block, COUNT.offset, pairs.len() as u16);
    put16(block, STALE.offset, 0);
    put32(block, VALUE_COUNT.offset, values.len() as u32);
    put_pairs(pairs, HEADER_SIZE, block);
}
