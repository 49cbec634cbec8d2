//! The free blocks of the node form.

ghost use Rattle.std.specs.Prelude.{◌≡◌, ◌+◌, ◌*◌, ◌≤◌, ◌==◌, length};
ghost use Rattle.std.specs.List.{list_all};
ghost use Rattle.std.specs.List.Sorted.{IsNonDecreasingBy};
ghost use Rattle.xfs_dirindex.specs.declared.data.Best.{Best};
ghost use Rattle.xfs_dirindex.specs.Mapped.{OffsetsAscend, mapped_block, mapped};
ghost use Rattle.xfs_dirindex.specs.FreeBlocks.{used_in, has_values, is_free_sound, is_covered, has_value, are_free};

use crate::data::Best;
use crate::layouts::FREE_START;
use crate::layouts::free_block::{FIRST, HEADER_SIZE, MOST_VALUES, USED, VALID, VALUE_SIZE};
use crate::lookup::bytes_mapped;
use crate::seen::DirSeen;
use crate::values::{UNMAPPED, are_values};
use xfs_disk::BLOCK_SIZE;
use xfs_word::{get16, get32};

/// Whether the free blocks of a directory have the values of its data blocks.
#[tactic(auto, unfolding(crate::specs::FreeBlocks::are_free))]
pub fn are_free(dir: &DirSeen, bests: &[Best]) -> bool
    requires mapped { length dir.now.blocks ≡ length dir.now.offsets.items }
    requires ascending { OffsetsAscend 0 dir.now.offsets.items }
    requires rise { IsNonDecreasingBy (λ (b : Best). b.offset) bests.now }
    ensures { result ≡ are_free bests.now (mapped dir.now.offsets.items dir.now.blocks) }
{
    if !are_sound(dir, bests) {
        return false;
    }
    have_values(dir, bests)
}

/// Whether each data block has its value in a free block.
fn have_values(dir: &DirSeen, bests: &[Best]) -> bool
    requires mapped { length dir.now.blocks ≡ length dir.now.offsets.items }
    requires ascending { OffsetsAscend 0 dir.now.offsets.items }
    ensures { result ≡ list_all (has_value (mapped dir.now.offsets.items dir.now.blocks)) bests.now }
{
    for best in bests {
        if !has_value(dir, *best) {
            return false;
        }
    }
    true
}

/// Whether each free block has the values of its data blocks.
fn are_sound(dir: &DirSeen, bests: &[Best]) -> bool
    requires mapped { length dir.now.blocks ≡ length dir.now.offsets.items }
    requires rise { IsNonDecreasingBy (λ (b : Best). b.offset) bests.now }
    ensures { result ≡ list_all (is_free_sound bests.now) (mapped dir.now.offsets.items dir.now.blocks) }
{
    for i in 0..dir.blocks.len() {
        if !is_free_sound(bests, dir.offsets[i], dir.blocks.view(i)) {
            return false;
        }
    }
    true
}

/// Whether a block has the values of its data blocks, if it is a free block.
#[tactic(auto, unfolding(crate::specs::FreeBlocks::is_free_sound))]
fn is_free_sound(bests: &[Best], offset: u64, bytes: &[u8]) -> bool
    requires size { length bytes.now ≡ 4096 }
    requires rise { IsNonDecreasingBy (λ (b : Best). b.offset) bests.now }
    ensures { result ≡ is_free_sound bests.now (mapped_block offset bytes.now) }
{
    if offset < FREE_START {
        return true;
    }
    has_values(bests, offset - FREE_START, bytes)
}

/// Whether free block `i` has the values of its data blocks.
#[tactic(auto, unfolding(crate::specs::FreeBlocks::has_values))]
fn has_values(bests: &[Best], i: u64, bytes: &[u8]) -> bool
    requires size { length bytes.now ≡ 4096 }
    requires rise { IsNonDecreasingBy (λ (b : Best). b.offset) bests.now }
    ensures { result ≡ has_values bests.now i bytes.now }
{
    if !is_first_value(get32(bytes, FIRST.offset), i) {
        return false;
    }
    let first = get32(bytes, FIRST.offset) as u64;
    let count = get32(bytes, VALID.offset) as usize;
    if count > MOST_VALUES {
        return false;
    }
    if get32(bytes, USED.offset) as usize != used_in(bytes, count) {
        return false;
    }
    are_values(bests, bytes, HEADER_SIZE, first, count)
}

/// Whether a data block is the first of free block `i`.
fn is_first_value(first: u32, i: u64) -> bool
    ensures { result ≡ (first == 2016 * i) }
{
    if i > u32::MAX as u64 {
        return false;
    }
    first as u64 == MOST_VALUES as u64 * i
}

/// How many of so many values are those of mapped blocks.
#[tactic(auto, unfolding(crate::specs::FreeBlocks::used_in))]
fn used_in(bytes: &[u8], count: usize) -> usize
    requires { 64 + 2 * count ≤ length bytes.now }
    ensures { result ≡ used_in bytes.now count }
{
    let mut used = 0;
    for j in 0..count {
        if get16(bytes, HEADER_SIZE + VALUE_SIZE * j) != UNMAPPED {
            used += 1;
        }
    }
    used
}

/// Whether a data block has its value in its free block.
fn has_value(dir: &DirSeen, best: Best) -> bool
    requires mapped { length dir.now.blocks ≡ length dir.now.offsets.items }
    requires ascending { OffsetsAscend 0 dir.now.offsets.items }
    ensures { result ≡ has_value (mapped dir.now.offsets.items dir.now.blocks) best }
{
    let i = best.offset / MOST_VALUES as u64;
    is_covered(best, bytes_mapped(dir, FREE_START + i))
}

/// Whether a free block reaches as far as the value of a data block.
#[tactic(auto, unfolding(crate::specs::FreeBlocks::is_covered))]
fn is_covered(best: Best, bytes: &[u8]) -> bool
    ensures { result ≡ is_covered best bytes.now }
{
    if bytes.len() != BLOCK_SIZE {
        return false;
    }
    best.offset % (MOST_VALUES as u64) < get32(bytes, VALID.offset) as u64
}
