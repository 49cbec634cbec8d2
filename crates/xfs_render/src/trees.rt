//! The trees of an allocation group, packed.

ghost use Rattle.std.specs.Prelude.{◌<◌, OnOk};
ghost use Rattle.xfs_geom.specs.Volumes.{volume_of};
ghost use Rattle.xfs_render.specs.Drafts.{IsDraft};
ghost use Rattle.xfs_render.specs.Groups.{CanPack, IsSoundGroup};
ghost use Rattle.xfs_render.specs.Trees.{AddsTree, AddsTrees};

use crate::draft::Draft;
use crate::heads::tree_places;
use std::alloc::Global;
use xfs_disk::{BLOCK_SIZE, NoMemory};
use xfs_geom::{Geometry, InoRec};
use xfs_kinds::{Bno, Cnt, Fino, Ino, Rmap};
use xfs_place::GroupPlaced;
use xfs_tree::Kind;
use xfs_treebuild::pack;

/// Puts down the five trees of a group.
pub fn add_trees(
    alloc: Global,
    g: &Geometry,
    ag: u32,
    inodes: &[InoRec],
    placed: &GroupPlaced,
    draft: &mut Draft,
) -> Result<(), NoMemory>
    requires group { ag < g.now.agcount }
    requires sound { IsSoundGroup (volume_of g.now) ag inodes.now placed.now }
    requires draft { IsDraft draft.old }
    ensures { OnOk result (AddsTrees (volume_of g.now) ag inodes.now placed.now draft.old draft.new) }
{
    add_tree(
        alloc,
        &Bno { ag },
        g,
        placed.bno.as_slice(),
        tree_places(placed, 0),
        draft,
    )?;
    add_tree(
        alloc,
        &Cnt { ag },
        g,
        placed.cnt.as_slice(),
        tree_places(placed, 1),
        draft,
    )?;
    add_tree(alloc, &Ino { ag }, g, inodes, tree_places(placed, 2), draft)?;
    add_tree(
        alloc,
        &Fino { ag },
        g,
        placed.fino.as_slice(),
        tree_places(placed, 3),
        draft,
    )?;
    add_tree(
        alloc,
        &Rmap { ag },
        g,
        placed.rmap.as_slice(),
        tree_places(placed, 4),
        draft,
    )?;
    Ok(())
}

/// Puts down a packed tree.
fn add_tree<K: Kind>(
    alloc: Global,
    kind: &K,
    g: &Geometry,
    records: &[K::Record],
    places: &[u64],
    draft: &mut Draft,
) -> Result<(), NoMemory>
    requires can_pack { CanPack (K.shape kind.now) (volume_of g.now) records.now places.now }
    requires draft { IsDraft draft.old }
    ensures { OnOk result (AddsTree (K.shape kind.now) (volume_of g.now) draft.old draft.new records.now places.now) }
{
    let Some(size) = places.len().checked_mul(BLOCK_SIZE) else {
        return Err(NoMemory);
    };
    let mut part = vec![in alloc; 0; size]?;
    pack(kind, g, records, places, &mut part);
    draft.add(places, &part)?;
    Ok(())
}
