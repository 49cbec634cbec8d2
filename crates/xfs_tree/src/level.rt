//! The blocks of one level of a tree, one after the other.

ghost use Rattle.std.specs.Prelude.{◌≡◌, ℕ, ◌+◌, ◌<◌, ◌≤◌, ◌==◌, ◌++◌, [], ◌∷◌, None, length, drop, List, IfOk, OnOk};
ghost use Rattle.std.specs.List.{flat_map};
ghost use Rattle.std.specs.Option.{ForSome};
ghost use Rattle.xfs_geom.specs.Volumes.{volume_of};
ghost use Rattle.xfs_tree.specs.Answers.{HasJudged, HasTreeCause, IsMet};
ghost use Rattle.xfs_disk.specs.Reads.{OnlyReads};
ghost use Rattle.xfs_tree.specs.Blocks.{capacity, count_of, records_of, children_of};
ghost use Rattle.xfs_tree.specs.Reading.{next_of, places_of, at_block, below, rule_at, row_fault};
ghost use Rattle.xfs_disk.specs.Blocks.{bytes_of_block};
ghost use Rattle.xfs_tree.specs.Rules.{last_of, place_fault};

use crate::items::{child_at, record_at};
use crate::kind::{Kind, tree_layout};
use crate::layout::count_of;
use crate::met::MetBlocks;
use crate::places::can_hold;
use crate::rules::{Neighbours, block_fault};
use crate::seats::Seat;
use crate::tree::TreeFault;
use crate::unread::Unread;
use std::alloc::Global;
use std::sync::ledger::Ledger;
use xfs_collections::Steps;
use xfs_disk::{BLOCK_SIZE, Disk, Failed, NoMemory};
use xfs_geom::Geometry;

/// Reads and judges the nodes of a level, and gives the blocks of the level below.
pub(crate) fn read_nodes<K: Kind, D: Disk, L: Ledger>(
    alloc: Global,
    kind: &K,
    g: &Geometry,
    disk: &mut D,
    level: u32,
    row: &[Seat<K::Key>],
    met: &mut MetBlocks,
    steps: &mut Steps<L>,
) -> Result<Vec<Seat<K::Key>>, TreeFault>
    requires nodes { 1 ≤ level }
    requires inside { g.now.dblocks ≤ D.size disk.old }
    requires met { IsMet met.old }
    ensures judged { ForSome (D.holds disk.old) (λ image. HasJudged (row_fault (K.shape kind.now) (volume_of g.now) image level met.old.blocks.items None None None row.now) result) }
    ensures children { IfOk result (λ next. ForSome (D.holds disk.old) (λ image. next.items ≡ flat_map (below (K.shape kind.now) (volume_of g.now) image) row.now)) }
    ensures blocks { OnOk result (met.new.blocks.items ≡ met.old.blocks.items ++ places_of row.now) }
    ensures met { OnOk result (IsMet met.new) }
    ensures cause { HasTreeCause (D.faults disk.old) (D.faults disk.new) result }
    ensures disk { OnlyReads D.size D.holds D.write_faults D.writes D.tells_stops D.moment D.may_leave D.left_since disk.old disk.new }
    ensures reads { D.reads disk.new + steps.old ≤ D.reads disk.old + steps.new }
{
    let mut next = Vec::new(alloc);
    let mut left = None;
    let mut block = [0; BLOCK_SIZE];
    for i in 0..row.len() {
        let seat = row[i];
        let beside = Neighbours {
            left,
            right: place_at(row, i + 1),
        };
        match enter(
            kind, g, disk, level, &beside, None, &seat, met, &mut block, steps,
        ) {
            Ok(()) => {}
            Err(fault) => return Err(fault),
        }
        match push_children(kind, g, &block, &mut next) {
            Ok(()) => {}
            Err(NoMemory) => return Err(TreeFault::NoMemory),
        }
        left = Some(seat.place);
    }
    Ok(next)
}

/// Reads and judges the leaves, and gives their records.
pub(crate) fn read_leaves<K: Kind, D: Disk, L: Ledger>(
    alloc: Global,
    kind: &K,
    g: &Geometry,
    disk: &mut D,
    row: &[Seat<K::Key>],
    met: &mut MetBlocks,
    steps: &mut Steps<L>,
) -> Result<Vec<K::Record>, TreeFault>
    requires inside { g.now.dblocks ≤ D.size disk.old }
    requires met { IsMet met.old }
    ensures judged { ForSome (D.holds disk.old) (λ image. HasJudged (row_fault (K.shape kind.now) (volume_of g.now) image 0 met.old.blocks.items None None None row.now) result) }
    ensures records { IfOk result (λ records. ForSome (D.holds disk.old) (λ image.
        records.items ≡ flat_map (λ seat. records_of (K.shape kind.now) (bytes_of_block image seat.place)) row.now)) }
    ensures blocks { OnOk result (met.new.blocks.items ≡ met.old.blocks.items ++ places_of row.now) }
    ensures met { OnOk result (IsMet met.new) }
    ensures cause { HasTreeCause (D.faults disk.old) (D.faults disk.new) result }
    ensures disk { OnlyReads D.size D.holds D.write_faults D.writes D.tells_stops D.moment D.may_leave D.left_since disk.old disk.new }
    ensures reads { D.reads disk.new + steps.old ≤ D.reads disk.old + steps.new }
{
    let mut records = Vec::new(alloc);
    let mut left = None;
    let mut before = None;
    let mut block = [0; BLOCK_SIZE];
    for i in 0..row.len() {
        let seat = row[i];
        let beside = Neighbours {
            left,
            right: place_at(row, i + 1),
        };
        match enter(
            kind, g, disk, 0, &beside, before, &seat, met, &mut block, steps,
        ) {
            Ok(()) => {}
            Err(fault) => return Err(fault),
        }
        match push_records(kind, &block, &mut records) {
            Ok(()) => {}
            Err(NoMemory) => return Err(TreeFault::NoMemory),
        }
        left = Some(seat.place);
        before = last_record(kind, &block, before);
    }
    Ok(records)
}

/// Reads a block of a level between its neighbours and behind the record in front of it, and judges it by
/// all rules. A block that keeps them counts as met. Counts one step where it reads.
fn enter<K: Kind, D: Disk, L: Ledger>(
    kind: &K,
    g: &Geometry,
    disk: &mut D,
    level: u32,
    beside: &Neighbours,
    before: Option<K::Record>,
    seat: &Seat<K::Key>,
    met: &mut MetBlocks,
    block: &mut [u8],
    steps: &mut Steps<L>,
) -> Result<(), TreeFault>
    requires inside { g.now.dblocks ≤ D.size disk.old }
    requires whole { length block.old ≡ 4096 }
    requires met { IsMet met.old }
    ensures judged { ForSome (D.holds disk.old) (λ image. HasJudged (at_block seat.now.place
        (rule_at (K.shape kind.now) (volume_of g.now) image level met.old.blocks.items beside.now.left beside.now.right before seat.now) None) result) }
    ensures bytes { OnOk result (ForSome (D.holds disk.old) (λ image. bytes_of_block image seat.now.place ≡ block.new)) }
    ensures count { OnOk result (count_of block.new ≤ capacity (K.shape kind.now).layout level) }
    ensures whole { length block.new ≡ 4096 }
    ensures blocks { OnOk result (met.new.blocks.items ≡ met.old.blocks.items ++ seat.now.place ∷ []) }
    ensures met { OnOk result (IsMet met.new) }
    ensures cause { HasTreeCause (D.faults disk.old) (D.faults disk.new) result }
    ensures disk { OnlyReads D.size D.holds D.write_faults D.writes D.tells_stops D.moment D.may_leave D.left_since disk.old disk.new }
    ensures reads { D.reads disk.new + steps.old ≤ D.reads disk.old + steps.new }
    ensures ticks { steps.new ≤ steps.old + 1 }
{
    let place = seat.place;
    match admit_block(kind, g, place, met) {
        Ok(None) => {}
        Ok(Some(rule)) => return Err(TreeFault::Unread(Unread { block: place, rule })),
        Err(NoMemory) => return Err(TreeFault::NoMemory),
    }
    steps.tick();
    match disk.read(place, block) {
        Ok(()) => {}
        Err(Failed) => return Err(TreeFault::ReadFault),
    }
    match block_fault(kind, g, level, beside, before, seat, block) {
        None => Ok(()),
        Some(rule) => Err(TreeFault::Unread(Unread { block: place, rule })),
    }
}

/// Whether a block can be one of the tree and was not met before: the first of these rules that it breaks.
/// A block that keeps them counts as met.
fn admit_block<K: Kind>(
    kind: &K,
    g: &Geometry,
    place: u64,
    met: &mut MetBlocks,
) -> Result<Option<u8>, NoMemory>
    requires { IsMet met.old }
    ensures fault { IfOk result (λ fault. fault ≡ place_fault (K.shape kind.now) (volume_of g.now) met.old.blocks.items place) }
    ensures inside { IfOk result (λ fault. fault ≡ None → place < g.now.dblocks) }
    ensures blocks { IfOk result (λ fault. fault ≡ None → met.new.blocks.items ≡ met.old.blocks.items ++ place ∷ []) }
    ensures met { IfOk result (λ fault. fault ≡ None → IsMet met.new) }
{
    if !can_hold(g, &tree_layout(kind), kind.owner(), place) {
        return Ok(Some(1));
    }
    if met.add(place)? {
        Ok(None)
    } else {
        Ok(Some(2))
    }
}

/// The place of a block of a row, where there is one.
pub fn place_at<Key: Copy>(row: &[Seat<Key>], i: usize) -> Option<u64>
    ensures { result ≡ next_of None (drop i row.now) }
{
    if i < row.len() {
        Some(row[i].place)
    } else {
        None
    }
}

/// Adds the children of a node.
pub(crate) fn push_children<K: Kind>(
    kind: &K,
    g: &Geometry,
    block: &[u8],
    next: &mut Vec<Seat<K::Key>>,
) -> Result<(), NoMemory>
    requires block { length block.now ≡ 4096 }
    requires count { count_of block.now ≤ (K.shape kind.now).layout.node_cap }
    ensures { OnOk result (next.new.items ≡ next.old.items ++ children_of (K.shape kind.now) (volume_of g.now) block.now) }
{
    for i in 0..count_of(block) as usize {
        next.push(child_at(kind, g, block, i))?;
    }
    Ok(())
}

/// Adds the records of a leaf.
pub(crate) fn push_records<K: Kind>(
    kind: &K,
    block: &[u8],
    records: &mut Vec<K::Record>,
) -> Result<(), NoMemory>
    requires block { length block.now ≡ 4096 }
    requires count { count_of block.now ≤ (K.shape kind.now).layout.leaf_cap }
    ensures { OnOk result (records.new.items ≡ records.old.items ++ records_of (K.shape kind.now) block.now) }
{
    for i in 0..count_of(block) as usize {
        records.push(record_at(kind, block, i))?;
    }
    Ok(())
}

/// The last record of a leaf, or the one before it where it is empty.
fn last_record<K: Kind>(kind: &K, block: &[u8], before: Option<K::Record>) -> Option<K::Record>
    requires block { length block.now ≡ 4096 }
    requires count { count_of block.now ≤ (K.shape kind.now).layout.leaf_cap }
    ensures { result ≡ last_of before (records_of (K.shape kind.now) block.now) }
{
    let count = count_of(block) as usize;
    if count == 0 {
        before
    } else {
        Some(record_at(kind, block, count - 1))
    }
}
