//! Trees before the first of their blocks is read, and after the last.

ghost use Rattle.std.specs.Prelude.{◌≡◌, ℕ, [], length, map, IfOk, Result};
ghost use Rattle.xfs_disk.specs.Blocks.{Image};
ghost use Rattle.xfs_geom.specs.Volumes.{Volume, volume_of};
ghost use Rattle.xfs_forest.specs.Forest.{AreGrowing, contents_of, Each, IsDone, IsForest, IsGrowing, reads_as};
ghost use Rattle.xfs_tree.specs.Reading.{Contents};
ghost use Rattle.xfs_tree.specs.Shape.{Shape};
ghost use Rattle.xfs_tree.specs.declared.unread.Unread.{Unread};

use crate::growing::{Growing, begin};
use crate::plants::Plant;
use std::alloc::Global;
use std::mem;
use xfs_disk::NoMemory;
use xfs_geom::Geometry;
use xfs_tree::{Kind, Tree, Unread};

/// Trees of which no block is read yet.
pub(crate) fn begin_all<K: Kind + Drop>(
    alloc: Global,
    plants: &[Plant<K>],
) -> Result<Vec<Growing<K::Record, K::Key>>, NoMemory>
    ensures forest { IfOk result (λ trees. (end : ℕ) → IsForest (length plants.now) end trees.items []) }
    ensures grows { IfOk result (λ trees. (v : Volume) (image : Image) → AreGrowing K.shape v image plants.now trees.items []) }
{
    let mut trees = Vec::with_capacity(alloc, plants.len())?;
    for i in 0..plants.len() {
        let tree = begin(alloc, &plants[i])?;
        trees.push(tree)?;
    }
    Ok(trees)
}

/// What trees that were read to their ends read as.
pub(crate) fn finish_all<K: Kind + Drop>(
    alloc: Global,
    g: &Geometry,
    plants: &[Plant<K>],
    trees: &mut [Growing<K::Record, K::Key>],
) -> Result<Vec<Result<Tree<K>, Unread>>, NoMemory>
    requires count { length trees.old ≡ length plants.now }
    requires done { Each IsDone (length plants.now) trees.old }
    ensures { IfOk result (λ grown. (image : Image) → AreGrowing K.shape (volume_of g.now) image plants.now trees.old [] →
        map contents_of grown.items ≡ map (reads_as K.shape (volume_of g.now) image) plants.now) }
{
    let mut grown = Vec::with_capacity(alloc, plants.len())?;
    for i in 0..plants.len() {
        grown.push(finish(alloc, &mut trees[i]))?;
    }
    Ok(grown)
}

/// What a tree that was read to its end reads as. Its lists are handed out.
fn finish<K: Kind>(alloc: Global, tree: &mut Growing<K::Record, K::Key>) -> Result<Tree<K>, Unread>
    requires done { IsDone tree.old }
    ensures { (s : Shape K.Record K.Key) (v : Volume) (image : Image) (whole : Result (Contents K.Record) Unread) →
        IsGrowing s v image whole tree.old [] → contents_of result ≡ whole }
{
    match tree.fault {
        Some(fault) => Err(fault),
        None => Ok(Tree {
            records: mem::replace(&mut tree.records, Vec::new(alloc)),
            blocks: mem::replace(&mut tree.met.blocks, Vec::new(alloc)),
        }),
    }
}
