//! Blocks that were judged, joined to their trees from the left.

ghost use Rattle.std.specs.Prelude.{◌≡◌, ◌<◌, [], ◌∷◌, List, length, IfOk, OnOk, Result};
ghost use Rattle.xfs_disk.specs.Blocks.{Image, bytes_of_block};
ghost use Rattle.xfs_geom.specs.Volumes.{volume_of};
ghost use Rattle.xfs_tree.specs.Alone.{IsFound};
ghost use Rattle.xfs_forest.specs.Forest.{AreFound, AreGrowing, AreListed, EachBoth, IsFoundIn, IsGrowing, IsJoined, IsKept, spots_of};
ghost use Rattle.xfs_tree.specs.Reading.{Contents};
ghost use Rattle.xfs_tree.specs.Rules.{last_of};
ghost use Rattle.xfs_tree.specs.declared.stepping.Spot.{Spot};
ghost use Rattle.xfs_tree.specs.declared.unread.Unread.{Unread};

use crate::cells::Cell;
use crate::growing::Growing;
use crate::plants::Plant;
use xfs_disk::NoMemory;
use xfs_geom::Geometry;
use xfs_tree::{Found, Kind, Unread, rule_behind};

/// Joins the blocks of a round, in order, each to its tree.
pub(crate) fn join_round<K: Kind + Drop>(
    g: &Geometry,
    plants: &[Plant<K>],
    trees: &mut [Growing<K::Record, K::Key>],
    cells: &[Cell<K::Record, K::Key>],
) -> Result<(), NoMemory>
    requires trees { length trees.old ≡ length plants.now }
    requires cells { AreListed (length plants.now) g.now.dblocks cells.now }
    ensures kept { OnOk result (EachBoth IsKept trees.old trees.new) }
    ensures grows { OnOk result ((image : Image) → AreFound K.shape (volume_of g.now) image plants.now cells.now →
        AreGrowing K.shape (volume_of g.now) image plants.now trees.old (spots_of cells.now) →
        AreGrowing K.shape (volume_of g.now) image plants.now trees.new []) }
{
    for i in 0..cells.len() {
        join_next(g, plants, trees, &cells[i])?;
    }
    Ok(())
}

/// Joins the next block of a round to its tree.
fn join_next<K: Kind + Drop>(
    g: &Geometry,
    plants: &[Plant<K>],
    trees: &mut [Growing<K::Record, K::Key>],
    cell: &Cell<K::Record, K::Key>,
) -> Result<(), NoMemory>
    requires trees { length trees.old ≡ length plants.now }
    requires tree { cell.now.spot.tree < length plants.now }
    ensures kept { OnOk result (EachBoth IsKept trees.old trees.new) }
    ensures grows { OnOk result ((image : Image) (spots : List (Spot K.Key)) → IsFoundIn K.shape (volume_of g.now) image plants.now cell.now →
        AreGrowing K.shape (volume_of g.now) image plants.now trees.old (cell.now.spot ∷ spots) →
        AreGrowing K.shape (volume_of g.now) image plants.now trees.new spots) }
{
    let t = cell.spot.tree;
    join_cell(&plants[t].kind, g, &mut trees[t], cell)?;
    Ok(())
}

/// Joins the next block of a tree that was judged.
fn join_cell<K: Kind>(
    kind: &K,
    g: &Geometry,
    tree: &mut Growing<K::Record, K::Key>,
    cell: &Cell<K::Record, K::Key>,
) -> Result<(), NoMemory>
    ensures kept { OnOk result (IsKept tree.old tree.new) }
    ensures grows { OnOk result ((image : Image) (whole : Result (Contents K.Record) Unread) (spots : List (Spot K.Key)) →
        IfOk cell.now.found (IsFound (K.shape kind.now) (volume_of g.now) cell.now.spot (bytes_of_block image cell.now.spot.seat.place)) →
        IsGrowing (K.shape kind.now) (volume_of g.now) image whole tree.old (cell.now.spot ∷ spots) →
        IsGrowing (K.shape kind.now) (volume_of g.now) image whole tree.new spots) }
{
    if tree.fault.is_some() {
        return Ok(());
    }
    let found = match &cell.found {
        Ok(found) => found,
        Err(NoMemory) => return Err(NoMemory),
    };
    match rule_behind(kind, g, tree.before, found) {
        Some(rule) => {
            tree.fault = Some(Unread {
                block: cell.spot.seat.place,
                rule,
            });
            Ok(())
        }
        None => {
            add_found(tree, found)?;
            Ok(())
        }
    }
}

/// Adds what was found in a block that keeps all rules.
fn add_found<Record: Copy + Send + Sync, Key: Copy + Send + Sync>(
    tree: &mut Growing<Record, Key>,
    found: &Found<Record, Key>,
) -> Result<(), NoMemory>
    ensures { OnOk result (IsJoined tree.old tree.new found.now) }
{
    tree.next.extend_from_slice(&found.children)?;
    tree.records.extend_from_slice(&found.records)?;
    tree.before = last_of(tree.before, &found.records);
    Ok(())
}

/// The last of some records, or the one in front of them where there is none.
fn last_of<Record: Copy>(before: Option<Record>, records: &[Record]) -> Option<Record>
    ensures { result ≡ last_of before records.now }
{
    if records.is_empty() {
        before
    } else {
        Some(records[records.len() - 1])
    }
}
