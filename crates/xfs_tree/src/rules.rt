//! The rules that a block of a tree keeps.

ghost use Rattle.std.specs.Prelude.{◌≡◌, ℕ, ◌<◌, ◌≤◌, ◌&&◌, ◌||◌, not, nat_le, true, length, Some, None};
ghost use Rattle.xfs_geom.specs.Volumes.{volume_of};
ghost use Rattle.xfs_tree.specs.Blocks.{capacity, count_of, records_of, lows_of, left_of, right_of};
ghost use Rattle.xfs_tree.specs.Alone.{early_fault};
ghost use Rattle.xfs_tree.specs.Rules.{block_fault, are_lawful, is_above, ascend_behind, greater, greatest_with, bound_agrees, is_ordered, low_of, high_of, least_of, is_sibling};

use crate::items::{high_key_at, low_key_at, record_at};
use crate::kind::{Kind, tree_layout};
use crate::layout::{Layout, count_of, level_of};
use crate::places::{block_seal, is_sibling};
use crate::seats::Seat;
use xfs_geom::Geometry;
use xfs_word::sealed;

/// A block's neighbours on its level, by their numbers.
#[derive(Clone, Copy)]
pub(crate) struct Neighbours {
    pub left: Option<u64>,
    pub right: Option<u64>,
}

/// The first rule from 3 to 8 that a block of a level breaks, between its neighbours and behind the record
/// in front of it, or `None`.
pub(crate) fn block_fault<K: Kind>(
    kind: &K,
    g: &Geometry,
    level: u32,
    beside: &Neighbours,
    before: Option<K::Record>,
    seat: &Seat<K::Key>,
    block: &[u8],
) -> Option<u8>
    requires block { length block.now ≡ 4096 }
    requires inside { seat.now.place < g.now.dblocks }
    ensures fault { result ≡ block_fault (K.shape kind.now) (volume_of g.now) level beside.now.left beside.now.right before seat.now block.now }
    ensures fits { result ≡ None → count_of block.now ≤ capacity (K.shape kind.now).layout level }
{
    match early_fault(kind, g, level, seat, block) {
        None => {}
        Some(rule) => return Some(rule),
    }
    if !is_ordered(kind, g, level, before, block) {
        return Some(6);
    }
    if !has_keys(kind, level, seat, block) {
        return Some(7);
    }
    if !has_siblings(kind, g, beside, block) {
        return Some(8);
    }
    None
}

/// The first rule from 3 to 5 that a block of a level breaks.
pub(crate) fn early_fault<K: Kind>(
    kind: &K,
    g: &Geometry,
    level: u32,
    seat: &Seat<K::Key>,
    block: &[u8],
) -> Option<u8>
    requires block { length block.now ≡ 4096 }
    requires inside { seat.now.place < g.now.dblocks }
    ensures fault { result ≡ early_fault (K.shape kind.now) (volume_of g.now) level seat.now block.now }
    ensures fits { result ≡ None → count_of block.now ≤ capacity (K.shape kind.now).layout level }
{
    let layout = tree_layout(kind);
    if !sealed(&block_seal(g, &layout, kind.owner(), seat.place), block) {
        return Some(3);
    }
    if level_of(block) != level {
        return Some(4);
    }
    if !has_count(&layout, level, least_of(level, seat.low), block) {
        return Some(5);
    }
    None
}

/// How many records or children a block needs: a leaf that is the root, which has no key due, needs none.
pub(crate) fn least_of<Key: Copy>(level: u32, low: Option<Key>) -> u64
    ensures { result ≡ least_of level low }
{
    match low {
        Some(_) => 1,
        None if level == 0 => 0,
        None => 1,
    }
}

/// Whether a block holds at least `least` records or children and at most its capacity.
pub(crate) fn has_count(layout: &Layout, level: u32, least: u64, block: &[u8]) -> bool
    requires { length block.now ≡ 4096 }
    ensures { result ≡ nat_le least (count_of block.now) && nat_le (count_of block.now) (capacity layout.now level) }
{
    least <= count_of(block) && count_of(block) <= layout.capacity(level)
}

/// Whether the records of a leaf are lawful behind the one in front of them, or the keys of a node ascend.
fn is_ordered<K: Kind>(
    kind: &K,
    g: &Geometry,
    level: u32,
    before: Option<K::Record>,
    block: &[u8],
) -> bool
    requires block { length block.now ≡ 4096 }
    requires count { count_of block.now ≤ capacity (K.shape kind.now).layout level }
    ensures { result ≡ is_ordered (K.shape kind.now) (volume_of g.now) level before block.now }
{
    if level == 0 {
        are_lawful(kind, g, before, block)
    } else {
        ascends(kind, level, block)
    }
}

/// Whether each record of a leaf is lawful behind the one in front of it.
fn are_lawful<K: Kind>(kind: &K, g: &Geometry, before: Option<K::Record>, block: &[u8]) -> bool
    requires block { length block.now ≡ 4096 }
    requires count { count_of block.now ≤ (K.shape kind.now).layout.leaf_cap }
    ensures { result ≡ are_lawful (K.shape kind.now) (volume_of g.now) before (records_of (K.shape kind.now) block.now) }
{
    let mut before = before;
    for i in 0..count_of(block) as usize {
        let item = record_at(kind, block, i);
        if !kind.lawful(g, before.as_ref(), &item) {
            return false;
        }
        before = Some(item);
    }
    true
}

/// Whether each low key in a block of a level is above the one in front of it.
pub(crate) fn ascends<K: Kind>(kind: &K, level: u32, block: &[u8]) -> bool
    requires block { length block.now ≡ 4096 }
    requires count { count_of block.now ≤ capacity (K.shape kind.now).layout level }
    ensures { result ≡ ascend_behind (K.shape kind.now) None (lows_of (K.shape kind.now) level block.now) }
{
    let mut before = None;
    for i in 0..count_of(block) as usize {
        let key = low_key_at(kind, level, block, i);
        if !is_above(kind, before, key) {
            return false;
        }
        before = Some(key);
    }
    true
}

/// Whether a key is above the one in front of it.
fn is_above<K: Kind>(kind: &K, before: Option<K::Key>, key: K::Key) -> bool
    ensures { result ≡ is_above (K.shape kind.now) before key }
{
    match before {
        Some(before) => kind.order(&before, &key).is_lt(),
        None => true,
    }
}

/// Whether the low key of a block and, where keys are pairs, its high key are those that its parent states.
pub(crate) fn has_keys<K: Kind>(kind: &K, level: u32, seat: &Seat<K::Key>, block: &[u8]) -> bool
    requires block { length block.now ≡ 4096 }
    requires count { count_of block.now ≤ capacity (K.shape kind.now).layout level }
    ensures { result ≡ bound_agrees (K.shape kind.now) seat.now.low (low_of (K.shape kind.now) level block.now)
        && (not (K.shape kind.now).layout.high || bound_agrees (K.shape kind.now) seat.now.high (high_of (K.shape kind.now) level block.now)) }
{
    if !bound_agrees(kind, seat.low, low_of(kind, level, block)) {
        return false;
    }
    if !tree_layout(kind).high {
        return true;
    }
    bound_agrees(kind, seat.high, high_of(kind, level, block))
}

/// Whether a key is the one that the parent states, where it states one.
fn bound_agrees<K: Kind>(_kind: &K, due: Option<K::Key>, held: Option<K::Key>) -> bool
    ensures { result ≡ bound_agrees (K.shape _kind.now) due held }
{
    match (due, held) {
        (None, _) => true,
        (Some(_), None) => false,
        (Some(due), Some(held)) => due == held,
    }
}

/// The low key of a block of a level: the first that it holds.
pub fn low_of<K: Kind>(kind: &K, level: u32, block: &[u8]) -> Option<K::Key>
    requires block { length block.now ≡ 4096 }
    requires count { count_of block.now ≤ capacity (K.shape kind.now).layout level }
    ensures { result ≡ low_of (K.shape kind.now) level block.now }
{
    if count_of(block) == 0 {
        None
    } else {
        Some(low_key_at(kind, level, block, 0))
    }
}

/// The high key of a block of a level, where keys are pairs: the greatest of those that it holds.
pub fn high_of<K: Kind>(kind: &K, level: u32, block: &[u8]) -> Option<K::Key>
    requires block { length block.now ≡ 4096 }
    requires count { count_of block.now ≤ capacity (K.shape kind.now).layout level }
    requires pairs { (K.shape kind.now).layout.high ≡ true }
    ensures { result ≡ high_of (K.shape kind.now) level block.now }
{
    let mut best = None;
    for i in 0..count_of(block) as usize {
        best = Some(greater(kind, best, high_key_at(kind, level, block, i)));
    }
    best
}

/// The greater of two keys.
fn greater<K: Kind>(kind: &K, best: Option<K::Key>, key: K::Key) -> K::Key
    ensures { result ≡ greater (K.shape kind.now) best key }
{
    match best {
        Some(best) => greater_of(kind, best, key),
        None => key,
    }
}

/// The greater of a key and another one.
fn greater_of<K: Kind>(kind: &K, best: K::Key, key: K::Key) -> K::Key
    ensures { result ≡ greater (K.shape kind.now) (Some best) key }
{
    if kind.order(&best, &key).is_lt() {
        key
    } else {
        best
    }
}

/// Whether the siblings that a block states are its neighbours.
pub(crate) fn has_siblings<K: Kind>(
    kind: &K,
    g: &Geometry,
    beside: &Neighbours,
    block: &[u8],
) -> bool
    requires { length block.now ≡ 4096 }
    ensures { result ≡ is_sibling (volume_of g.now) (K.shape kind.now).layout (K.shape kind.now).owner beside.now.left (left_of (K.shape kind.now).layout block.now)
        && is_sibling (volume_of g.now) (K.shape kind.now).layout (K.shape kind.now).owner beside.now.right (right_of (K.shape kind.now).layout block.now) }
{
    let layout = tree_layout(kind);
    let owner = kind.owner();
    is_sibling(g, &layout, owner, beside.left, layout.left(block))
        && is_sibling(g, &layout, owner, beside.right, layout.right(block))
}
