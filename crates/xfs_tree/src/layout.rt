//! How the blocks of a kind of tree are laid out.

ghost use Rattle.std.specs.Prelude.{◌≡◌, ℕ, ◌^◌, ◌<◌, ◌≤◌, ◌+◌, false, length};
ghost use Rattle.xfs_tree.specs.Layout.{IsLayout, header_len, keys_len, pointer_len};
ghost use Rattle.xfs_tree.specs.Blocks.{level_of, count_of, left_of, right_of, no_sibling, capacity, record_place, key_place, pointer_place, pointer_at};

use crate::headers::{long, short};
use xfs_word::{get16, get32, get64};

/// What the blocks of a kind of tree have in common. Lengths are in bytes.
#[derive(Clone, Copy, Debug)]
pub struct Layout {
    pub magic: u32,
    /// Whether blocks begin with the long header.
    pub long: bool,
    /// Whether the keys of a node are pairs of a low and a high key.
    pub high: bool,
    pub record_len: usize,
    pub key_len: usize,
    /// The most records of a leaf.
    pub leaf_cap: u64,
    /// The most children of a node.
    pub node_cap: u64,
}

impl Layout {
    /// The bytes of a block's header.
    pub fn header_len(&self) -> usize
        ensures { result ≡ header_len self.now }
    {
        if self.long { 72 } else { 56 }
    }

    /// The bytes of a pointer to a block.
    pub fn pointer_len(&self) -> usize
        ensures { result ≡ pointer_len self.now }
    {
        if self.long { 8 } else { 4 }
    }

    /// The most records or children of a block of this level.
    pub fn capacity(&self, level: u32) -> u64
        ensures { result ≡ capacity self.now level }
    {
        if level == 0 {
            self.leaf_cap
        } else {
            self.node_cap
        }
    }

    /// The pointer that names no block: all ones.
    pub fn no_sibling(&self) -> u64
        ensures { result ≡ no_sibling self.now }
    {
        if self.long { u64::MAX } else { u32::MAX as u64 }
    }

    /// The pointer to the left sibling: an AG block, or an address.
    pub(crate) fn left(&self, block: &[u8]) -> u64
        requires { length block.now ≡ 4096 }
        ensures value { result ≡ left_of self.now block.now }
        ensures short { self.now.long ≡ false → result < 2 ^ 32 }
    {
        if self.long {
            get64(block, long::LEFTSIB.offset)
        } else {
            get32(block, short::LEFTSIB.offset) as u64
        }
    }

    /// The pointer to the right sibling: an AG block, or an address.
    pub(crate) fn right(&self, block: &[u8]) -> u64
        requires { length block.now ≡ 4096 }
        ensures value { result ≡ right_of self.now block.now }
        ensures short { self.now.long ≡ false → result < 2 ^ 32 }
    {
        if self.long {
            get64(block, long::RIGHTSIB.offset)
        } else {
            get32(block, short::RIGHTSIB.offset) as u64
        }
    }

    /// The byte offset of a record.
    pub fn record_place(&self, i: usize) -> usize
        requires sound { IsLayout self.now }
        requires inside { i < self.now.leaf_cap }
        ensures place { result ≡ record_place self.now i }
        ensures inside { result + self.now.record_len ≤ 4096 }
    {
        self.header_len() + i * self.record_len
    }

    /// The bytes of a child's key, or of its pair of keys.
    pub(crate) fn keys_len(&self) -> usize
        requires { IsLayout self.now }
        ensures { result ≡ keys_len self.now }
    {
        if self.high {
            2 * self.key_len
        } else {
            self.key_len
        }
    }

    /// The byte offset of a child's key, or of its pair of keys.
    pub fn key_place(&self, i: usize) -> usize
        requires sound { IsLayout self.now }
        requires inside { i < self.now.node_cap }
        ensures place { result ≡ key_place self.now i }
        ensures inside { result + keys_len self.now ≤ pointer_place self.now 0 }
    {
        self.header_len() + i * self.keys_len()
    }

    /// The byte offset of a child's pointer.
    pub fn pointer_place(&self, i: usize) -> usize
        requires sound { IsLayout self.now }
        requires inside { i < self.now.node_cap }
        ensures place { result ≡ pointer_place self.now i }
        ensures inside { result + pointer_len self.now ≤ 4096 }
    {
        self.header_len() + self.node_cap as usize * self.keys_len() + i * self.pointer_len()
    }

    /// A child's pointer: an AG block, or an address.
    pub(crate) fn pointer(&self, block: &[u8], i: usize) -> u64
        requires sound { IsLayout self.now }
        requires block { length block.now ≡ 4096 }
        requires inside { i < self.now.node_cap }
        ensures value { result ≡ pointer_at self.now block.now i }
        ensures short { self.now.long ≡ false → result < 2 ^ 32 }
    {
        let at = self.pointer_place(i);
        if self.long {
            get64(block, at)
        } else {
            get32(block, at) as u64
        }
    }
}

/// The level of a block, 0 for a leaf.
pub(crate) fn level_of(block: &[u8]) -> u32
    requires { length block.now ≡ 4096 }
    ensures { result ≡ level_of block.now }
{
    get16(block, short::LEVEL.offset) as u32
}

/// How many records or children a block has.
pub(crate) fn count_of(block: &[u8]) -> u64
    requires { length block.now ≡ 4096 }
    ensures value { result ≡ count_of block.now }
    ensures low { result < 2 ^ 16 }
{
    get16(block, short::NUMRECS.offset) as u64
}
