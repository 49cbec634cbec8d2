//! What a block of a tree holds: records, or children with their keys.

ghost use Rattle.std.specs.Prelude.{◌≡◌, ℕ, ◌^◌, ◌<◌, ◌≤◌, ◌==◌, true, false, if◌then◌else◌, length, map, Option, Some, None};
ghost use Rattle.xfs_geom.specs.Volumes.{volume_of};
ghost use Rattle.xfs_tree.specs.Layout.{IsLayout};
ghost use Rattle.xfs_tree.specs.Blocks.{capacity, record_at, low_at, high_at, child_at, block_of_pointer, low_key_at, high_key_at};

use crate::kind::{Kind, tree_layout};
use crate::layout::Layout;
use crate::seats::Seat;
use xfs_geom::Geometry;
use xfs_word::part;

/// A record of a leaf.
pub(crate) fn record_at<K: Kind>(kind: &K, block: &[u8], i: usize) -> K::Record
    requires block { length block.now ≡ 4096 }
    requires inside { i < (K.shape kind.now).layout.leaf_cap }
    ensures { result ≡ record_at (K.shape kind.now) block.now i }
{
    let layout = tree_layout(kind);
    kind.read_record(part(block, layout.record_place(i), layout.record_len))
}

/// The low key of a node's child.
pub(crate) fn low_at<K: Kind>(kind: &K, block: &[u8], i: usize) -> K::Key
    requires block { length block.now ≡ 4096 }
    requires inside { i < (K.shape kind.now).layout.node_cap }
    ensures { result ≡ low_at (K.shape kind.now) block.now i }
{
    let layout = tree_layout(kind);
    kind.read_key(part(block, layout.key_place(i), layout.key_len))
}

/// The high key of a node's child, where keys are pairs.
pub(crate) fn high_at<K: Kind>(kind: &K, block: &[u8], i: usize) -> K::Key
    requires block { length block.now ≡ 4096 }
    requires inside { i < (K.shape kind.now).layout.node_cap }
    requires pairs { (K.shape kind.now).layout.high ≡ true }
    ensures { result ≡ high_at (K.shape kind.now) block.now i }
{
    let layout = tree_layout(kind);
    kind.read_key(part(block, layout.key_place(i) + layout.key_len, layout.key_len))
}

/// The low key of what a block of a level holds.
pub(crate) fn low_key_at<K: Kind>(kind: &K, level: u32, block: &[u8], i: usize) -> K::Key
    requires block { length block.now ≡ 4096 }
    requires inside { i < capacity (K.shape kind.now).layout level }
    ensures { result ≡ low_key_at (K.shape kind.now) level block.now i }
{
    if level == 0 {
        kind.low_key(&record_at(kind, block, i))
    } else {
        low_at(kind, block, i)
    }
}

/// The high key of what a block of a level holds, where keys are pairs.
pub(crate) fn high_key_at<K: Kind>(kind: &K, level: u32, block: &[u8], i: usize) -> K::Key
    requires block { length block.now ≡ 4096 }
    requires inside { i < capacity (K.shape kind.now).layout level }
    requires pairs { (K.shape kind.now).layout.high ≡ true }
    ensures { result ≡ high_key_at (K.shape kind.now) level block.now i }
{
    if level == 0 {
        kind.high_key(&record_at(kind, block, i))
    } else {
        high_at(kind, block, i)
    }
}

/// A node's child: its block, and the keys that the node states.
pub(crate) fn child_at<K: Kind>(kind: &K, g: &Geometry, block: &[u8], i: usize) -> Seat<K::Key>
    requires block { length block.now ≡ 4096 }
    requires inside { i < (K.shape kind.now).layout.node_cap }
    ensures { result ≡ child_at (K.shape kind.now) (volume_of g.now) block.now i }
{
    let layout = tree_layout(kind);
    Seat {
        place: block_of_pointer(g, &layout, kind.owner(), layout.pointer(block, i)),
        low: Some(low_at(kind, block, i)),
        high: stated_high(kind, block, i),
    }
}

/// The high key that a node states of its child, where keys are pairs.
fn stated_high<K: Kind>(kind: &K, block: &[u8], i: usize) -> Option<K::Key>
    requires block { length block.now ≡ 4096 }
    requires inside { i < (K.shape kind.now).layout.node_cap }
    ensures { result ≡ (if (K.shape kind.now).layout.high then Some (high_at (K.shape kind.now) block.now i) else None) }
{
    if tree_layout(kind).high {
        Some(high_at(kind, block, i))
    } else {
        None
    }
}

/// The block number that a pointer states: of an AG block of the owner's group, also where it lies outside, or
/// of an address. An address outside the volume gives all ones.
pub(crate) fn block_of_pointer(g: &Geometry, layout: &Layout, owner: u64, pointer: u64) -> u64
    requires owner { layout.now.long ≡ false → owner < 2 ^ 32 }
    requires pointer { layout.now.long ≡ false → pointer < 2 ^ 32 }
    ensures { result ≡ block_of_pointer (volume_of g.now) layout.now owner pointer }
{
    if layout.long {
        g.block_of_address(pointer).unwrap_or(u64::MAX)
    } else {
        owner * g.agblocks as u64 + pointer
    }
}
