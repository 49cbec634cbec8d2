//! What a block of a level is, whatever stands in front of it.

ghost use Rattle.std.specs.Prelude.{◌≡◌, ◌≤◌, ◌<◌, None, Some, length, IfOk, ⊤};
ghost use Rattle.xfs_geom.specs.Volumes.{volume_of};
ghost use Rattle.xfs_tree.specs.Blocks.{capacity, count_of, records_of};
ghost use Rattle.xfs_tree.specs.Alone.{children_at, first_of, is_ordered_within, IsFound, late_fault, lawful_within, records_at, rule_behind};

use crate::items::record_at;
use crate::kind::Kind;
use crate::layout::count_of;
use crate::level::{push_children, push_records};
use crate::rules::{Neighbours, ascends, early_fault, has_keys, has_siblings};
use crate::seats::Seat;
use std::alloc::{AllocError, Global};
use xfs_disk::NoMemory;
use xfs_geom::Geometry;

/// A block of a round: whose it is, and where it stands.
#[derive(Copy)]
pub struct Spot<Key> {
    /// The number of its tree.
    pub tree: usize,
    /// Which block of the round it is, from 0.
    pub at: usize,
    /// Its level, 0 for leaves.
    pub level: u32,
    pub seat: Seat<Key>,
    /// Its neighbours on the level, by their numbers.
    pub left: Option<u64>,
    pub right: Option<u64>,
}

impl<Key: Copy> Clone for Spot<Key> {
    ghost is_clone = { λ x y. y ≡ x };

    ghost is_infallible = { λ _. ⊤ };

    fn clone(&self) -> Result<Spot<Key>, AllocError> {
        Ok(*self)
    }
}

/// What is found in a block, whatever stands in front of it.
#[derive(Drop)]
pub struct Found<Record: Drop, Key: Drop> {
    /// The first rule that it breaks, but for the order of its first record.
    pub alone: Option<u8>,
    /// The first record of a leaf that keeps rules 3 to 5.
    pub first: Option<Record>,
    /// The children of a node that breaks no rule.
    pub children: Vec<Seat<Key>>,
    /// The records of a leaf that breaks no rule.
    pub records: Vec<Record>,
}

/// Judges a block of a level by rules 3 to 8, but for the order of its first record behind the leaf in front, and gives its
/// children or its records.
pub fn read_step<K: Kind>(
    alloc: Global,
    kind: &K,
    g: &Geometry,
    spot: &Spot<K::Key>,
    block: &[u8],
) -> Result<Found<K::Record, K::Key>, NoMemory>
    requires block { length block.now ≡ 4096 }
    requires inside { spot.now.seat.place < g.now.dblocks }
    ensures { IfOk result (IsFound (K.shape kind.now) (volume_of g.now) spot.now block.now) }
{
    match early_fault(kind, g, spot.level, &spot.seat, block) {
        None => {}
        Some(rule) => return Ok(broken(alloc, rule, None)),
    }
    let first = first_of(kind, spot.level, block);
    match late_fault(kind, g, spot, block) {
        None => {}
        Some(rule) => return Ok(broken(alloc, rule, first)),
    }
    let children = children_at(alloc, kind, g, spot.level, block)?;
    let records = records_at(alloc, kind, spot.level, block)?;
    Ok(Found {
        alone: None,
        first,
        children,
        records,
    })
}

/// The children of a block, where it is a node.
fn children_at<K: Kind>(
    alloc: Global,
    kind: &K,
    g: &Geometry,
    level: u32,
    block: &[u8],
) -> Result<Vec<Seat<K::Key>>, NoMemory>
    requires block { length block.now ≡ 4096 }
    requires count { count_of block.now ≤ capacity (K.shape kind.now).layout level }
    ensures { IfOk result (λ children. children.items ≡ children_at (K.shape kind.now) (volume_of g.now) level block.now) }
{
    if level == 0 {
        return Ok(Vec::new(alloc));
    }
    let mut children = Vec::with_capacity(alloc, count_of(block) as usize)?;
    push_children(kind, g, block, &mut children)?;
    Ok(children)
}

/// The records of a block, where it is a leaf.
fn records_at<K: Kind>(
    alloc: Global,
    kind: &K,
    level: u32,
    block: &[u8],
) -> Result<Vec<K::Record>, NoMemory>
    requires block { length block.now ≡ 4096 }
    requires count { count_of block.now ≤ capacity (K.shape kind.now).layout level }
    ensures { IfOk result (λ records. records.items ≡ records_at (K.shape kind.now) level block.now) }
{
    if level != 0 {
        return Ok(Vec::new(alloc));
    }
    let mut records = Vec::with_capacity(alloc, count_of(block) as usize)?;
    push_records(kind, block, &mut records)?;
    Ok(records)
}

/// A block that breaks a rule gives nothing.
fn broken<Record: Drop, Key: Drop>(
    alloc: Global,
    rule: u8,
    first: Option<Record>,
) -> Found<Record, Key>
    ensures alone { result.alone ≡ Some rule }
    ensures first { result.first ≡ first }
{
    Found {
        alone: Some(rule),
        first,
        children: Vec::new(alloc),
        records: Vec::new(alloc),
    }
}

/// The first rule from 6 to 8 that a block breaks between its neighbours, whatever stands in front of its first record.
#[tactic(auto, unfolding(crate::specs::Alone::late_fault))]
fn late_fault<K: Kind>(kind: &K, g: &Geometry, spot: &Spot<K::Key>, block: &[u8]) -> Option<u8>
    requires block { length block.now ≡ 4096 }
    requires count { count_of block.now ≤ capacity (K.shape kind.now).layout spot.now.level }
    ensures { result ≡ late_fault (K.shape kind.now) (volume_of g.now) spot.now.level spot.now.left spot.now.right spot.now.seat block.now }
{
    if !is_ordered_within(kind, g, spot.level, block) {
        return Some(6);
    }
    if !has_keys(kind, spot.level, &spot.seat, block) {
        return Some(7);
    }
    let beside = Neighbours {
        left: spot.left,
        right: spot.right,
    };
    if !has_siblings(kind, g, &beside, block) {
        return Some(8);
    }
    None
}

/// The first record of a leaf.
fn first_of<K: Kind>(kind: &K, level: u32, block: &[u8]) -> Option<K::Record>
    requires block { length block.now ≡ 4096 }
    requires count { count_of block.now ≤ capacity (K.shape kind.now).layout level }
    ensures { result ≡ first_of (K.shape kind.now) level block.now }
{
    if level == 0 && count_of(block) > 0 {
        Some(record_at(kind, block, 0))
    } else {
        None
    }
}

/// Whether each record of a leaf but the first is lawful behind the one in front of it, or the keys of a node ascend.
fn is_ordered_within<K: Kind>(kind: &K, g: &Geometry, level: u32, block: &[u8]) -> bool
    requires block { length block.now ≡ 4096 }
    requires count { count_of block.now ≤ capacity (K.shape kind.now).layout level }
    ensures { result ≡ is_ordered_within (K.shape kind.now) (volume_of g.now) level block.now }
{
    if level == 0 {
        are_lawful_within(kind, g, block)
    } else {
        ascends(kind, level, block)
    }
}

/// Whether each record of a leaf but the first is lawful behind the one in front of it.
fn are_lawful_within<K: Kind>(kind: &K, g: &Geometry, block: &[u8]) -> bool
    requires block { length block.now ≡ 4096 }
    requires count { count_of block.now ≤ (K.shape kind.now).layout.leaf_cap }
    ensures { result ≡ lawful_within (K.shape kind.now) (volume_of g.now) (records_of (K.shape kind.now) block.now) }
{
    let count = count_of(block) as usize;
    if count == 0 {
        return true;
    }
    let mut before = record_at(kind, block, 0);
    for i in 1..count {
        let item = record_at(kind, block, i);
        if !kind.lawful(g, Some(&before), &item) {
            return false;
        }
        before = item;
    }
    true
}

/// The first rule that a block breaks behind a record.
pub fn rule_behind<K: Kind>(
    kind: &K,
    g: &Geometry,
    before: Option<K::Record>,
    found: &Found<K::Record, K::Key>,
) -> Option<u8>
    ensures { result ≡ rule_behind (K.shape kind.now) (volume_of g.now) before found.now.first found.now.alone }
{
    match &found.first {
        Some(first) => fault_behind(kind, g, before, first, found.alone),
        None => found.alone,
    }
}

/// The first rule that a leaf with a first record breaks behind a record.
fn fault_behind<K: Kind>(
    kind: &K,
    g: &Geometry,
    before: Option<K::Record>,
    first: &K::Record,
    alone: Option<u8>,
) -> Option<u8>
    ensures { result ≡ rule_behind (K.shape kind.now) (volume_of g.now) before (Some first.now) alone }
{
    if kind.lawful(g, before.as_ref(), first) {
        alone
    } else {
        Some(6)
    }
}
