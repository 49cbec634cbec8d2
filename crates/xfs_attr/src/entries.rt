//! The entries of a leaf, and their values.

ghost use Rattle.std.specs.Prelude.{◌≡◌, ℕ, ◌+◌, ◌*◌, ◌^◌, ◌<◌, ◌≤◌, length};
ghost use Rattle.xfs_attr.specs.Leaf.{leaf_entry_at, is_local, is_complete, name_size, value_size, leaf_entry_name, value_of, leaf_entry_size};

use crate::layouts::leaf::{
    ENTRIES, ENTRY_SIZE, FLAGS, HASHVAL, NAMEIDX, NAMELEN, VALUE_SIZE, VALUELEN,
};
use xfs_word::{get8, get16, get32, part};

/// The flag of an entry whose value stands in the leaf.
const LOCAL: u8 = 1;

/// The flag of an entry that is not an attribute yet.
const INCOMPLETE: u8 = 0x80;

/// An entry of a leaf: the hash of its name, the byte offset of its value, its flags.
#[derive(Clone, Copy)]
pub struct LeafEntry {
    pub hash: u32,
    pub nameidx: u16,
    pub flags: u8,
}

impl LeafEntry {
    /// Whether the value stands in the leaf.
    pub fn is_local(&self) -> bool
        ensures { result ≡ is_local self.now }
    {
        self.flags & LOCAL != 0
    }

    /// Whether the entry is an attribute.
    pub fn is_complete(&self) -> bool
        ensures { result ≡ is_complete self.now }
    {
        self.flags & INCOMPLETE == 0
    }
}

/// The entry at an index.
#[tactic(auto, unfolding(crate::specs::Leaf::leaf_entry_at))]
pub fn read_entry(block: &[u8], index: usize) -> LeafEntry
    requires { 88 + 8 * index ≤ length block.now }
    ensures { result ≡ leaf_entry_at block.now index }
{
    let at = ENTRIES + ENTRY_SIZE * index;
    LeafEntry {
        hash: get32(block, at + HASHVAL.offset),
        nameidx: get16(block, at + NAMEIDX.offset),
        flags: get8(block, at + FLAGS.offset),
    }
}

/// The bytes that an entry's value takes, with what stands in front of it.
#[tactic(auto, unfolding(crate::specs::Leaf::leaf_entry_size))]
pub fn leaf_entry_size(block: &[u8], entry: LeafEntry) -> usize
    requires { entry.nameidx + 3 ≤ length block.now }
    ensures value { result ≡ leaf_entry_size block.now entry }
    ensures some { 4 ≤ result }
    ensures most { result < 2 ^ 17 }
{
    let size = VALUE_SIZE + name_size(block, entry) as usize + value_size(block, entry) as usize;
    (size + 3) / 4 * 4
}

/// The name of an entry.
#[tactic(auto, unfolding(crate::specs::Leaf::leaf_entry_size))]
pub fn leaf_entry_name(block: &[u8], entry: LeafEntry) -> &[u8]
    requires { entry.nameidx + leaf_entry_size block.now entry ≤ length block.now }
    ensures { result.now ≡ leaf_entry_name block.now entry }
{
    let at = entry.nameidx as usize + VALUE_SIZE;
    part(block, at, name_size(block, entry) as usize)
}

/// The value of an entry.
#[tactic(auto, unfolding(crate::specs::Leaf::leaf_entry_size))]
pub fn value_of(block: &[u8], entry: LeafEntry) -> &[u8]
    requires { entry.nameidx + leaf_entry_size block.now entry ≤ length block.now }
    ensures { result.now ≡ value_of block.now entry }
{
    let at = entry.nameidx as usize + VALUE_SIZE + name_size(block, entry) as usize;
    part(block, at, value_size(block, entry) as usize)
}

/// The bytes of an entry's name.
fn name_size(block: &[u8], entry: LeafEntry) -> u8
    requires { entry.nameidx + 3 ≤ length block.now }
    ensures { result ≡ name_size block.now entry }
{
    get8(block, entry.nameidx as usize + NAMELEN.offset)
}

/// The bytes of an entry's value.
fn value_size(block: &[u8], entry: LeafEntry) -> u16
    requires { entry.nameidx + 3 ≤ length block.now }
    ensures { result ≡ value_size block.now entry }
{
    get16(block, entry.nameidx as usize + VALUELEN.offset)
}
