//! The free blocks of the node form, written.

ghost use Rattle.std.specs.Prelude.{◌≡◌, ℕ, [], ◌+◌, ◌*◌, ◌<◌, ◌≤◌, ◌^◌, length, slice_index_or};
ghost use Rattle.std.specs.Prelude.{◌⊎◌};
ghost use Rattle.xfs_word.specs.Field.{zeros};
ghost use Rattle.xfs_dirbuild.specs.Blocks.{free_block, free_index_blocks, bank_part};
ghost use Rattle.xfs_dirbuild.specs.Forms.{value_blocks};
ghost use Rattle.xfs_dirbuild.specs.FreeBlocks.{IsBuiltFreeBlock, values_in};

use crate::forms::value_blocks;
use crate::writing::{blank, put_block, put_values};
use xfs_collections::BlockBank;
use xfs_dirindex::layouts::free_block::{FIRST, HEADER_SIZE, MOST_VALUES, USED, VALID};
use xfs_word::put32;

/// The magic number of a free block.
const FREE_MAGIC: u32 = 0x5844_4633;

/// Writes the free blocks with the value of each data block, from block `base` of a bank on.
#[tactic(auto, unfolding(crate::specs::Forms::value_blocks))]
pub fn put_free_blocks(values: &[u16], base: usize, blocks: &mut BlockBank)
    requires few { length values.now ≤ 2 ^ 24 }
    requires base { base ≤ 2 ^ 33 }
    requires room { base + value_blocks (length values.now) ≤ length blocks.old }
    ensures blocks { (i : ℕ) → i < value_blocks (length values.now) → IsBuiltFreeBlock (2016 * i) (values_in values.now i) (slice_index_or blocks.new (base + i) []) }
    ensures bytes { bank_part blocks.new base (value_blocks (length values.now)) ≡ free_index_blocks values.now }
    ensures count { length blocks.new ≡ length blocks.old }
    ensures others { (k : ℕ) → k < base → slice_index_or blocks.new k [] ≡ slice_index_or blocks.old k [] }
{
    for i in 0..value_blocks(values.len()) {
        let first = MOST_VALUES * i;
        let end = (first + MOST_VALUES).min(values.len());
        let mut block = blank();
        put_free(first as u32, &values[first..end], &mut block);
        put_block(base + i, &block, blocks);
    }
}

/// Writes a free block with these values of data blocks that are all mapped, from data block `first` on.
fn put_free(first: u32, values: &[u16], block: &mut [u8])
    requires most { length values.now ≤ 2016 }
    requires long { length block.old ≡ 4096 }
    requires blank { block.old ≡ zeros 4096 }
    ensures stands { IsBuiltFreeBlock first values.now block.new }
    ensures bytes { block.new ≡ free_block first values.now }
{
    put_values(values, HEADER_SIZE, block);
    put32(block, 0, FREE_MAGIC);
    put32(block, FIRST.offset, first);
    put32(block, VALID.offset, values.len() as u32);
    put32(block, USED.offset, values.len() as u32);
}
