//! What is placed in a new volume with files.

ghost use Rattle.std.specs.Prelude.{◌≡◌, IfOk};
ghost use Rattle.xfs_filled.specs.Chunks.{spared_list};
ghost use Rattle.xfs_filled.specs.Sites.{IsSite};
ghost use Rattle.xfs_filled.specs.Wanting.{wanted_by_chunks};

use crate::chunks::{BEHIND_CHUNK, list_inodes, list_runs};
use crate::objects::list_objects;
use crate::site::Site;
use std::alloc::Global;
use xfs_disk::NoMemory;
use xfs_place::Wanted;
use xfs_volume::Records;

/// What is placed in a volume with these files, of each group of which the blocks from an AG block on are spared for trees.
pub fn make_wanted(
    alloc: Global,
    site: &Site<'_>,
    spared_from: Records<u32>,
) -> Result<Wanted, NoMemory>
    requires site { IsSite site.now.geometry.now site.now.starts.now site.now.nodes.now site.now.contents.now site.now.directories.now site.now.order.now }
    requires spared { spared_from ≡ spared_list site.now.geometry.now }
    ensures { IfOk result (λ wanted. wanted ≡ wanted_by_chunks site.now.geometry.now site.now.starts.now site.now.nodes.now site.now.contents.now) }
{
    let g = site.geometry;
    let objects = list_objects(alloc, site)?;
    let inodes = list_inodes(alloc, g, site.nodes.len(), site.starts)?;
    Ok(Wanted {
        geometry: *g,
        taken: Records::from_vec(Vec::new(alloc)),
        new: Records::from_vec(list_runs(alloc, site.starts)?),
        reserved: Records::from_vec(Vec::new(alloc)),
        from: BEHIND_CHUNK,
        spared_from,
        takes_spared: false,
        objects: Records::from_vec(objects),
        inodes: Records::from_vec(inodes),
    })
}
