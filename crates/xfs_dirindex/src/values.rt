//! The values of the longest unused spans of data blocks.

ghost use Rattle.std.specs.Prelude.{◌≡◌, ◌+◌, ◌*◌, ◌<◌, ◌≤◌, ◌==◌, ◌^◌, length};
ghost use Rattle.std.specs.List.{AllWithin};
ghost use Rattle.std.specs.List.Sorted.{IsNonDecreasingBy};
ghost use Rattle.xfs_dirindex.specs.declared.data.Best.{Best};
ghost use Rattle.xfs_dirindex.specs.Leaf.{best_length_of, are_values, end_of};

use crate::data::Best;
use xfs_disk::BLOCK_SIZE;
use xfs_word::get16;

/// The value of a data block that is not mapped.
pub const UNMAPPED: u16 = 0xffff;

/// Whether the size of a directory, in bytes, is that of its blocks up to the last data block.
pub fn has_size(bests: &[Best], size: u64) -> bool
    ensures { result ≡ (size == 4096 * end_of bests.now) }
{
    if bests.is_empty() {
        return size == 0;
    }
    let last = bests[bests.len() - 1].offset;
    if size % BLOCK_SIZE as u64 != 0 {
        return false;
    }
    if size == 0 {
        return false;
    }
    size / BLOCK_SIZE as u64 - 1 == last
}

/// Whether so many values from a byte offset on are those of the data blocks from `first` on.
#[tactic(auto, unfolding(crate::specs::Leaf::are_values))]
pub fn are_values(bests: &[Best], bytes: &[u8], at: usize, first: u64, count: usize) -> bool
    requires inside { at + 2 * count ≤ length bytes.now }
    requires low { first < 2 ^ 40 }
    requires few { count < 2 ^ 20 }
    requires rise { IsNonDecreasingBy (λ (b : Best). b.offset) bests.now }
    ensures { result ≡ are_values bests.now bytes.now at first count }
{
    for j in 0..count {
        if get16(bytes, at + 2 * j) != best_length_of(bests, first + j as u64) {
            return false;
        }
    }
    true
}

/// The longest unused span of a data block, in bytes, or `UNMAPPED`.
fn best_length_of(bests: &[Best], block: u64) -> u16
    requires { IsNonDecreasingBy (λ (b : Best). b.offset) bests.now }
    ensures { result ≡ best_length_of bests.now block }
{
    let k = place_of(bests, block);
    if k == bests.len() {
        return UNMAPPED;
    }
    if bests[k].offset != block {
        return UNMAPPED;
    }
    bests[k].length
}

/// How many of these spans are those of earlier data blocks.
fn place_of(bests: &[Best], block: u64) -> usize
    requires { IsNonDecreasingBy (λ (b : Best). b.offset) bests.now }
    ensures within { result ≤ length bests.now }
    ensures before { AllWithin (λ b. b.offset < block) bests.now 0 result }
    ensures after { AllWithin (λ b. block ≤ b.offset) bests.now result (length bests.now) }
{
    bests.partition_point(|best| best.offset < block)
}
