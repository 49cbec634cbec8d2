//! Reading a tree from a disk, level by level, each block once.

ghost use Rattle.std.specs.Prelude.{◌≡◌, ℕ, ◌+◌, ◌-◌, ◌≤◌, [], ◌∷◌, List, Ok, OnOk, MatchResult};
ghost use Rattle.std.specs.Option.{ForSome};
ghost use Rattle.xfs_geom.specs.Volumes.{volume_of};
ghost use Rattle.xfs_tree.specs.Answers.{Fails, HasTreeCause};
ghost use Rattle.xfs_disk.specs.Reads.{OnlyReads};
ghost use Rattle.xfs_tree.specs.Reading.{root_seat, reading};
ghost use Rattle.xfs_tree.specs.Seats.{seats_of};

use crate::frontier::Frontier;
use crate::kind::Kind;
use crate::level::{read_leaves, read_nodes};
use crate::met::MetBlocks;
use crate::seats::Seat;
use crate::tree::{Tree, TreeFault};
use std::alloc::Global;
use std::sync::ledger::Ledger;
use xfs_collections::Steps;
use xfs_disk::{Disk, NoMemory};
use xfs_geom::Geometry;

/// Reads the tree of so many levels whose root is the block of this number: its records in order, or the
/// first block that breaks a rule. Each block is read once, and none of which a rule speaks before it is read
/// is read at all, so a tree that leads back into itself ends. Each block that is read counts as a step, also
/// where the read fails.
pub fn read_tree<K: Kind, D: Disk, L: Ledger>(
    alloc: Global,
    kind: &K,
    g: &Geometry,
    disk: &mut D,
    root: u64,
    levels: u32,
    steps: &mut Steps<L>,
) -> Result<Tree<K>, TreeFault>
    requires levels { 1 ≤ levels }
    requires inside { g.now.dblocks ≤ D.size disk.old }
    ensures read { ForSome (D.holds disk.old) (λ image. MatchResult result
        (λ tree. reading (K.shape kind.now) (volume_of g.now) image (root_seat root ∷ []) (levels - 1) ≡ Ok (record { records = tree.records.items; blocks = tree.blocks.items }))
        (λ error. Fails error (reading (K.shape kind.now) (volume_of g.now) image (root_seat root ∷ []) (levels - 1)))) }
    ensures cause { HasTreeCause (D.faults disk.old) (D.faults disk.new) result }
    ensures disk { OnlyReads D.size D.holds D.write_faults D.writes D.tells_stops D.moment D.may_leave D.left_since disk.old disk.new }
    ensures reads { D.reads disk.new + steps.old ≤ D.reads disk.old + steps.new }
{
    let mut row = Vec::new(alloc);
    match push_root(root, &mut row) {
        Ok(()) => read_levels(alloc, kind, g, disk, row, levels - 1, steps),
        Err(NoMemory) => Err(TreeFault::NoMemory),
    }
}

/// Reads a tree from one whole level down, whose neighbours are not asked: the blocks of that level are the
/// first blocks of the result. Each block that is read counts as a step, also where the read fails.
pub fn read_below<K: Kind, D: Disk, L: Ledger>(
    alloc: Global,
    kind: &K,
    g: &Geometry,
    disk: &mut D,
    top: &Frontier<K>,
    steps: &mut Steps<L>,
) -> Result<Tree<K>, TreeFault>
    requires { g.now.dblocks ≤ D.size disk.old }
    ensures read { ForSome (D.holds disk.old) (λ image. MatchResult result
        (λ tree. reading (K.shape kind.now) (volume_of g.now) image (seats_of top.now.places.items top.now.lows.items top.now.highs.items) top.now.level ≡ Ok (record { records = tree.records.items; blocks = tree.blocks.items }))
        (λ error. Fails error (reading (K.shape kind.now) (volume_of g.now) image (seats_of top.now.places.items top.now.lows.items top.now.highs.items) top.now.level))) }
    ensures cause { HasTreeCause (D.faults disk.old) (D.faults disk.new) result }
    ensures disk { OnlyReads D.size D.holds D.write_faults D.writes D.tells_stops D.moment D.may_leave D.left_since disk.old disk.new }
    ensures reads { D.reads disk.new + steps.old ≤ D.reads disk.old + steps.new }
{
    match top.seats(alloc) {
        Ok(row) => read_levels(alloc, kind, g, disk, row, top.level, steps),
        Err(NoMemory) => Err(TreeFault::NoMemory),
    }
}

/// Reads a tree from the blocks of one level down.
fn read_levels<K: Kind, D: Disk, L: Ledger>(
    alloc: Global,
    kind: &K,
    g: &Geometry,
    disk: &mut D,
    tops: Vec<Seat<K::Key>>,
    height: u32,
    steps: &mut Steps<L>,
) -> Result<Tree<K>, TreeFault>
    requires { g.now.dblocks ≤ D.size disk.old }
    ensures read { ForSome (D.holds disk.old) (λ image. MatchResult result
        (λ tree. reading (K.shape kind.now) (volume_of g.now) image tops.items height ≡ Ok (record { records = tree.records.items; blocks = tree.blocks.items }))
        (λ error. Fails error (reading (K.shape kind.now) (volume_of g.now) image tops.items height))) }
    ensures cause { HasTreeCause (D.faults disk.old) (D.faults disk.new) result }
    ensures disk { OnlyReads D.size D.holds D.write_faults D.writes D.tells_stops D.moment D.may_leave D.left_since disk.old disk.new }
    ensures reads { D.reads disk.new + steps.old ≤ D.reads disk.old + steps.new }
{
    let mut row = tops;
    let mut met = MetBlocks::new(alloc);
    for depth in 0..height {
        match read_nodes(alloc, kind, g, disk, height - depth, &row, &mut met, steps) {
            Ok(next) => row = next,
            Err(fault) => return Err(fault),
        }
    }
    match read_leaves(alloc, kind, g, disk, &row, &mut met, steps) {
        Ok(records) => Ok(Tree {
            records,
            blocks: met.blocks,
        }),
        Err(fault) => Err(fault),
    }
}

/// Adds a root, which no parent states.
fn push_root<Key: Copy + Send>(root: u64, row: &mut Vec<Seat<Key>>) -> Result<(), NoMemory>
    requires { row.old.items ≡ [] }
    ensures { OnOk result (row.new.items ≡ root_seat root ∷ []) }
{
    row.push(Seat {
        place: root,
        low: None,
        high: None,
    })?;
    Ok(())
}
