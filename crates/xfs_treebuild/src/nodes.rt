//! Writes the nodes of a packed tree, whose keys are read from the blocks below them.

ghost use Rattle.std.specs.Prelude.{◌≡◌, ℕ, ◌+◌, ◌*◌, ◌^◌, ◌<◌, ◌≤◌, true, false, length, Some, None, IsTrue, slice_index};
ghost use Rattle.std.specs.List.{All};
ghost use Rattle.xfs_word.specs.Field.{part_of, KeepsBeside, KeepsParts};
ghost use Rattle.xfs_geom.specs.Volumes.{volume_of};
ghost use Rattle.xfs_tree.specs.Layout.{IsLayout, keys_len, pointer_len};
ghost use Rattle.xfs_tree.specs.Blocks.{count_of, capacity, key_place, pointer_place, pointer_at, low_at, high_at, child_at};
ghost use Rattle.xfs_tree.specs.Rules.{can_hold};
ghost use Rattle.xfs_treebuild.specs.Exact.{KeepsBesideChild, KeepsBesideChildren, IsSpelt, HasSpeltKeys};
ghost use Rattle.xfs_treebuild.specs.Packing.{block_of_part};
ghost use Rattle.xfs_treebuild.specs.Private.Placed.{IsNodeAt, IsChild, IsKey, seat_of, seats_in};

use crate::blocks::{block_of_part, clear_block, put_block};
use crate::heads::{pointer_to, put_head};
use xfs_disk::share_of;
use xfs_geom::Geometry;
use xfs_tree::{Kind, Layout, Seat, high_of, low_of, tree_layout};
use xfs_word::{put32, put64};

/// Writes the nodes over the blocks of a level, which stand in `part` from block `first` on and are to lie
/// at the places of `below`. The nodes stand behind them, and are to lie at the places of `row`.
pub(crate) fn write_nodes<K: Kind>(
    kind: &K,
    g: &Geometry,
    level: u32,
    first: usize,
    below: &[u64],
    row: &[u64],
    part: &mut [u8],
)
    requires level { level + 1 < 2 ^ 16 }
    requires room { length below.now ≤ length row.now * (K.shape kind.now).layout.node_cap }
    requires part { 4096 * (first + length below.now + length row.now) ≤ length part.old }
    requires below { All (λ place. IsTrue (can_hold (volume_of g.now) (K.shape kind.now).layout (K.shape kind.now).owner place)) below.now }
    requires can_hold { All (λ place. IsTrue (can_hold (volume_of g.now) (K.shape kind.now).layout (K.shape kind.now).owner place)) row.now }
    requires children { (j : ℕ) → j < length below.now → IsChild (K.shape kind.now) level (block_of_part part.old (first + j)) }
    ensures nodes { (i : ℕ) → i < length row.now
        → IsNodeAt (K.shape kind.now) (volume_of g.now) (level + 1) (seats_in (K.shape kind.now) level below.now first part.old) row.now i (block_of_part part.new (first + length below.now + i)) }
    ensures before { (k : ℕ) → k < first + length below.now → block_of_part part.new k ≡ block_of_part part.old k }
{
    let mut from = 0;
    for i in 0..row.len() {
        let share = share_of(below.len(), row.len(), i);
        let mut block = clear_block();
        put_children(
            kind,
            g,
            level,
            first + from,
            &below[from..from + share],
            part,
            &mut block,
        );
        put_head(kind, g, level + 1, share, row, i, &mut block);
        put_block(part, first + below.len() + i, &block);
        from += share;
    }
}

/// Writes the children of a node: the blocks of a level that stand in `part` from block `from` on and are to
/// lie at these places.
fn put_children<K: Kind>(
    kind: &K,
    g: &Geometry,
    level: u32,
    from: usize,
    places: &[u64],
    part: &[u8],
    block: &mut [u8],
)
    requires block { length block.old ≡ 4096 }
    requires part { 4096 * (from + length places.now) ≤ length part.now }
    requires room { length places.now ≤ (K.shape kind.now).layout.node_cap }
    requires can_hold { All (λ place. IsTrue (can_hold (volume_of g.now) (K.shape kind.now).layout (K.shape kind.now).owner place)) places.now }
    requires children { (j : ℕ) → j < length places.now → IsChild (K.shape kind.now) level (block_of_part part.now (from + j)) }
    ensures put { (k : ℕ) → k < length places.now → child_at (K.shape kind.now) (volume_of g.now) block.new k
        ≡ seat_of (K.shape kind.now) level (slice_index places.now k) (block_of_part part.now (from + k)) }
    ensures spelt { (k : ℕ) → k < length places.now → HasSpeltKeys (K.shape kind.now) k block.new }
    ensures keeps { KeepsBesideChildren (K.shape kind.now).layout (length places.now) block.old block.new }
{
    for i in 0..places.len() {
        let seat = seat_of(kind, level, places[i], block_of_part(part, from + i));
        put_child(kind, g, &seat, i, block);
    }
}

/// A block by its place and its keys.
fn seat_of<K: Kind>(kind: &K, level: u32, place: u64, block: &[u8]) -> Seat<K::Key>
    requires block { length block.now ≡ 4096 }
    requires full { count_of block.now ≤ capacity (K.shape kind.now).layout level }
    ensures { result ≡ seat_of (K.shape kind.now) level place block.now }
{
    let high = if tree_layout(kind).high {
        high_of(kind, level, block)
    } else {
        None
    };
    Seat {
        place,
        low: low_of(kind, level, block),
        high,
    }
}

/// Writes the keys of a node's child, and the pointer to it.
fn put_child<K: Kind>(kind: &K, g: &Geometry, seat: &Seat<K::Key>, i: usize, block: &mut [u8])
    requires block { length block.old ≡ 4096 }
    requires inside { i < (K.shape kind.now).layout.node_cap }
    requires can_hold { IsTrue (can_hold (volume_of g.now) (K.shape kind.now).layout (K.shape kind.now).owner seat.now.place) }
    requires low { IsKey (K.shape kind.now) seat.now.low }
    requires high { (K.shape kind.now).layout.high ≡ true → IsKey (K.shape kind.now) seat.now.high }
    requires one { (K.shape kind.now).layout.high ≡ false → seat.now.high ≡ None }
    ensures put { child_at (K.shape kind.now) (volume_of g.now) block.new i ≡ seat.now }
    ensures others { (k : ℕ) → k < i → child_at (K.shape kind.now) (volume_of g.now) block.new k ≡ child_at (K.shape kind.now) (volume_of g.now) block.old k }
    ensures spelt { HasSpeltKeys (K.shape kind.now) i block.new }
    ensures keeps { KeepsBesideChild (K.shape kind.now).layout i block.old block.new }
{
    let layout = tree_layout(kind);
    put_keys(kind, seat, i, block);
    put_pointer(
        &layout,
        i,
        pointer_to(g, &layout, kind.owner(), seat.place),
        block,
    );
}

/// Writes the low key of a node's child and, where keys are pairs, its high key.
fn put_keys<K: Kind>(kind: &K, seat: &Seat<K::Key>, i: usize, block: &mut [u8])
    requires block { length block.old ≡ 4096 }
    requires inside { i < (K.shape kind.now).layout.node_cap }
    requires low { IsKey (K.shape kind.now) seat.now.low }
    requires high { (K.shape kind.now).layout.high ≡ true → IsKey (K.shape kind.now) seat.now.high }
    ensures low { Some (low_at (K.shape kind.now) block.new i) ≡ seat.now.low }
    ensures high { (K.shape kind.now).layout.high ≡ true → Some (high_at (K.shape kind.now) block.new i) ≡ seat.now.high }
    ensures spelt_low { IsSpelt (K.shape kind.now) (part_of block.new (key_place (K.shape kind.now).layout i) (K.shape kind.now).layout.key_len) }
    ensures spelt_high { (K.shape kind.now).layout.high ≡ true
        → IsSpelt (K.shape kind.now) (part_of block.new (key_place (K.shape kind.now).layout i + (K.shape kind.now).layout.key_len) (K.shape kind.now).layout.key_len) }
    ensures keeps { KeepsBeside block.old block.new (key_place (K.shape kind.now).layout i) (keys_len (K.shape kind.now).layout) }
    ensures keeps_parts { KeepsParts block.old block.new (key_place (K.shape kind.now).layout i) (keys_len (K.shape kind.now).layout) }
{
    let layout = tree_layout(kind);
    let at = layout.key_place(i);
    put_key(kind, seat.low, at, block);
    if layout.high {
        put_key(kind, seat.high, at + layout.key_len, block);
    }
}

/// Writes a key.
fn put_key<K: Kind>(kind: &K, key: Option<K::Key>, at: usize, block: &mut [u8])
    requires inside { at + (K.shape kind.now).layout.key_len ≤ length block.old }
    requires key { IsKey (K.shape kind.now) key }
    ensures put { Some ((K.shape kind.now).key_of (part_of block.new at (K.shape kind.now).layout.key_len)) ≡ key }
    ensures spelt { IsSpelt (K.shape kind.now) (part_of block.new at (K.shape kind.now).layout.key_len) }
    ensures keeps { KeepsBeside block.old block.new at (K.shape kind.now).layout.key_len }
    ensures keeps_parts { KeepsParts block.old block.new at (K.shape kind.now).layout.key_len }
{
    if let Some(key) = key {
        kind.put_key(&key, &mut block[at..at + tree_layout(kind).key_len]);
    }
}

/// Writes the pointer to a node's child: an AG block, or an address.
fn put_pointer(layout: &Layout, i: usize, pointer: u64, block: &mut [u8])
    requires sound { IsLayout layout.now }
    requires block { length block.old ≡ 4096 }
    requires inside { i < layout.now.node_cap }
    requires short { layout.now.long ≡ false → pointer < 2 ^ 32 }
    ensures put { pointer_at layout.now block.new i ≡ pointer }
    ensures keeps { KeepsBeside block.old block.new (pointer_place layout.now i) (pointer_len layout.now) }
    ensures keeps_parts { KeepsParts block.old block.new (pointer_place layout.now i) (pointer_len layout.now) }
{
    let at = layout.pointer_place(i);
    if layout.long {
        put64(block, at, pointer);
    } else {
        put32(block, at, pointer as u32);
    }
}
