//! Whether a leaf keeps the rules of its form.

ghost use Rattle.std.specs.Prelude.{◌≡◌, ℕ, ◌+◌, ◌*◌, ◌^◌, ◌<◌, ◌≤◌, ◌==◌, ◌&&◌, ◌||◌, nat_le, nat_lt, true, false, length, IsTrue, slice_index_or};
ghost use Rattle.std.specs.List.{list_all, sum_by, range_with_len};
ghost use Rattle.xfs_word.specs.Field.{field_of};
ghost use Rattle.xfs_attr.specs.Leaf.{leaf_entry_at, entries, leaf_entry_size, is_whole_entry, are_ascending, entries_apart, is_sound_leaf, AreInside};

use crate::entries::{LeafEntry, leaf_entry_name, leaf_entry_size, read_entry};
use crate::layouts::leaf::{BACK, ENTRIES, ENTRY_SIZE, FIRSTUSED, FORW, USEDBYTES, VALUE_SIZE};
use xfs_disk::BLOCK_SIZE;
use xfs_word::{get16, get32, name_hash};

/// Whether a leaf with so many entries keeps the rules of its form.
#[tactic(auto, unfolding(crate::specs::Leaf::is_sound_leaf))]
pub fn is_sound_leaf(block: &[u8], count: usize) -> bool
    requires block { length block.now ≡ 4096 }
    requires count { count < 2 ^ 16 }
    ensures value { result ≡ is_sound_leaf block.now count }
    ensures inside { IsTrue result → AreInside block.now count }
{
    let first = get16(block, FIRSTUSED.offset) as usize;
    if get32(block, FORW.offset) != 0 || get32(block, BACK.offset) != 0 {
        return false;
    }
    if first < ENTRIES + ENTRY_SIZE * count {
        return false;
    }
    if !are_whole(block, first, count) {
        return false;
    }
    if !are_ascending(block, count) {
        return false;
    }
    if !entries_apart(block, count) {
        return false;
    }
    used_bytes(block, count) == get16(block, USEDBYTES.offset) as usize
}

/// Whether each value lies in the block from `first` on, and each hash is that of the name.
fn are_whole(block: &[u8], first: usize, count: usize) -> bool
    requires block { length block.now ≡ 4096 }
    requires first { 80 + 8 * count ≤ first }
    ensures value { result ≡ list_all (is_whole_entry block.now first) (entries block.now count) }
    ensures inside { IsTrue result → AreInside block.now count }
{
    for index in 0..count {
        if !is_whole_entry(block, first, index) {
            return false;
        }
    }
    true
}

/// Whether the value of the entry at an index lies in the block from `first` on, and the hash is that of the
/// name.
fn is_whole_entry(block: &[u8], first: usize, index: usize) -> bool
    requires block { length block.now ≡ 4096 }
    requires first { 88 + 8 * index ≤ first }
    ensures value { result ≡ is_whole_entry block.now first (leaf_entry_at block.now index) }
    ensures room { IsTrue result → first ≤ 4096 }
    ensures inside { IsTrue result → (leaf_entry_at block.now index).nameidx + leaf_entry_size block.now (leaf_entry_at block.now index) ≤ 4096 }
{
    if first > BLOCK_SIZE {
        return false;
    }
    let entry = read_entry(block, index);
    if !lies_from(block, first, entry) {
        return false;
    }
    name_hash(leaf_entry_name(block, entry)) == entry.hash
}

/// Whether an entry's value lies in the block from `first` on.
fn lies_from(block: &[u8], first: usize, entry: LeafEntry) -> bool
    requires { length block.now ≡ 4096 }
    ensures value { result ≡ (nat_le first entry.nameidx && nat_le (entry.nameidx + leaf_entry_size block.now entry) 4096) }
    ensures above { IsTrue result → first ≤ entry.nameidx }
    ensures inside { IsTrue result → entry.nameidx + leaf_entry_size block.now entry ≤ 4096 }
{
    let at = entry.nameidx as usize;
    if at < first {
        return false;
    }
    if at + VALUE_SIZE > BLOCK_SIZE {
        return false;
    }
    at + leaf_entry_size(block, entry) <= BLOCK_SIZE
}

/// Whether no entry has a lower hash than the one before it.
#[tactic(auto, unfolding(crate::specs::Leaf::are_ascending))]
fn are_ascending(block: &[u8], count: usize) -> bool
    requires { 80 + 8 * count ≤ length block.now }
    ensures { result ≡ are_ascending block.now count }
{
    (1..count).all(|index| read_entry(block, index - 1).hash <= read_entry(block, index).hash)
}

/// Whether no two values overlap.
fn entries_apart(block: &[u8], count: usize) -> bool
    requires block { length block.now ≡ 4096 }
    requires inside { AreInside block.now count }
    ensures { result ≡ entries_apart block.now (entries block.now count) }
{
    let mut taken = [false; BLOCK_SIZE];
    for index in 0..count {
        let entry = read_entry(block, index);
        let at = entry.nameidx as usize;
        if !claim(&mut taken, at, at + leaf_entry_size(block, entry)) {
            return false;
        }
    }
    true
}

/// Takes the bytes from `start` up to `end`, where none of them is taken.
fn claim(taken: &mut [bool; BLOCK_SIZE], start: usize, end: usize) -> bool
    requires order { start ≤ end }
    requires inside { end ≤ 4096 }
    ensures free { IsTrue result → (b : ℕ) → start ≤ b → b < end → slice_index_or taken.old b false ≡ false }
    ensures met { result ≡ false → (b : ℕ) × (start ≤ b) × (b < end) × (slice_index_or taken.old b false ≡ true) }
    ensures taken { IsTrue result → (b : ℕ) → b < 4096 →
        slice_index_or taken.new b false ≡ (slice_index_or taken.old b false || (nat_le start b && nat_lt b end)) }
{
    for byte in start..end {
        if taken[byte] {
            return false;
        }
        taken[byte] = true;
    }
    true
}

/// The bytes that all values take.
fn used_bytes(block: &[u8], count: usize) -> usize
    requires block { length block.now ≡ 4096 }
    requires inside { AreInside block.now count }
    ensures { result ≡ sum_by (leaf_entry_size block.now) (entries block.now count) }
{
    let mut used = 0;
    for index in 0..count {
        used += leaf_entry_size(block, read_entry(block, index));
    }
    used
}
