//! A tree whose reading is under way.

ghost use Rattle.std.specs.Prelude.{[], IfOk};
ghost use Rattle.xfs_disk.specs.Blocks.{Image};
ghost use Rattle.xfs_geom.specs.Volumes.{Volume};
ghost use Rattle.xfs_forest.specs.Forest.{IsDescended, IsGrowing, IsThrough, KnowsMet};
ghost use Rattle.xfs_tree.specs.Reading.{reading};

use crate::plants::Plant;
use std::alloc::Global;
use std::mem;
use xfs_disk::NoMemory;
use xfs_tree::{Kind, MetBlocks, Seat, Unread};

/// A tree whose reading is under way: where it stands in a level.
#[derive(Drop)]
pub(crate) struct Growing<Record: Drop, Key: Drop> {
    /// The level of the row, 0 for leaves.
    pub level: u32,
    /// The blocks of the level.
    pub row: Vec<Seat<Key>>,
    /// How many of them were taken into rounds.
    pub at: usize,
    /// The last that was taken, by its number.
    pub side: Option<u64>,
    /// The blocks that were taken, on all levels.
    pub met: MetBlocks,
    /// The last record of the leaves that were judged.
    pub before: Option<Record>,
    /// The children of the nodes that were judged.
    pub next: Vec<Seat<Key>>,
    /// The records of the leaves that were judged.
    pub records: Vec<Record>,
    /// The first block that breaks a rule.
    pub fault: Option<Unread>,
}

/// A tree of which no block is read yet.
pub(crate) fn begin<K: Kind + Drop>(
    alloc: Global,
    plant: &Plant<K>,
) -> Result<Growing<K::Record, K::Key>, NoMemory>
    ensures met { IfOk result KnowsMet }
    ensures grows { IfOk result (λ tree. (v : Volume) (image : Image) → IsGrowing (K.shape plant.now.kind) v image (reading (K.shape plant.now.kind) v image plant.now.tops.items plant.now.height) tree []) }
{
    Ok(Growing {
        level: plant.height,
        row: Vec::from_slice(alloc, &plant.tops)?,
        at: 0,
        side: None,
        met: MetBlocks::new(alloc),
        before: None,
        next: Vec::new(alloc),
        records: Vec::new(alloc),
        fault: None,
    })
}

/// Begins the level below, where there is one.
#[tactic(auto, using(crate::proofs::Trees::descended_same))]
pub(crate) fn descend<Record: Drop, Key: Drop>(alloc: Global, tree: &mut Growing<Record, Key>)
    requires through { IsThrough tree.old }
    ensures { IsDescended tree.old tree.new }
{
    if tree.level == 0 {
        return;
    }
    tree.level -= 1;
    tree.row = mem::replace(&mut tree.next, Vec::new(alloc));
    tree.at = 0;
    tree.side = None;
    tree.before = None;
}
