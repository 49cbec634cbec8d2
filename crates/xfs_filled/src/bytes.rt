//! What the blocks of a new volume with files are made of.

ghost use Rattle.std.specs.Prelude.{◌≡◌, ◌+◌, ◌*◌, ◌≤◌, ◌<◌, ◌^◌, ◌++◌, IfOk, OnOk};
ghost use Rattle.std.specs.List.{All, range_with_len};
ghost use Rattle.xfs_geom.specs.Volumes.{volume_of};
ghost use Rattle.xfs_place.specs.Pool.{IsRunOf};
ghost use Rattle.xfs_filled.specs.FileTrees.{object_order};
ghost use Rattle.xfs_filled.specs.Forks.{HasOffset};
ghost use Rattle.xfs_filled.specs.Sites.{IsSite};
ghost use Rattle.xfs_filled.specs.Spans.{AreRunsOf};
ghost use Rattle.xfs_filled.specs.Wanting.{bytes_with, filled_places};

use crate::chunks::CHUNK_BLOCKS;
use crate::contents::list_blocks;
use crate::site::Site;
use crate::slots::list_slots;
use std::alloc::Global;
use xfs_collections::BlockList;
use xfs_disk::{NoMemory, Stamp};
use xfs_geom::{Geometry, Run};
use xfs_render::Bytes;
use xfs_volume::Records;

/// What the blocks of a volume with these files are made of, with this superblock, where its objects have these runs: blocks
/// that were zeros, the blocks of the objects, the slots of all chunks, and a blank log of cycle 1.
pub fn make_bytes(
    alloc: Global,
    site: &Site<'_>,
    sector: &[u8; 512],
    stamp: &Stamp,
    runs: &[Run],
) -> Result<Bytes, NoMemory>
    requires site { IsSite site.now.geometry.now site.now.starts.now site.now.nodes.now site.now.contents.now site.now.directories.now site.now.order.now }
    requires inside { All (IsRunOf site.now.geometry.now.dblocks) runs.now }
    requires offsets { All HasOffset runs.now }
    requires runs { AreRunsOf (volume_of site.now.geometry.now) site.now.starts.now (object_order site.now.nodes.now) runs.now }
    ensures { IfOk result (λ bytes. bytes ≡ bytes_with site.now.geometry.now sector.now stamp.now site.now.starts.now site.now.nodes.now site.now.contents.now runs.now) }
{
    let places = list_places(alloc, site.geometry, site.starts)?;
    let old = BlockList::zeros(alloc, places.len())?;
    Ok(Bytes {
        sector: *sector,
        places: Records::from_vec(places),
        old,
        objects: list_blocks(alloc, site)?,
        slots: Records::from_vec(list_slots(alloc, site, stamp, runs)?),
        cycle: Some(1),
        stamp: *stamp,
    })
}

/// The first block of each group, and behind these the blocks of the chunks.
fn list_places(alloc: Global, g: &Geometry, starts: &[u64]) -> Result<Vec<u64>, NoMemory>
    requires volume { All (λ start. start + 8 ≤ g.now.dblocks) starts.now }
    ensures { IfOk result (λ places. places.items ≡ filled_places g.now starts.now) }
{
    let mut places = Vec::new(alloc);
    for ag in 0..g.agcount {
        places.push(head_of(g, ag))?;
    }
    for start in starts {
        push_chunk(*start, &mut places)?;
    }
    Ok(places)
}

/// The first block of a group.
fn head_of(g: &Geometry, ag: u32) -> u64
    ensures { result ≡ ag * g.now.agblocks }
{
    ag as u64 * g.agblocks as u64
}

/// Adds the blocks of a chunk.
fn push_chunk(start: u64, places: &mut Vec<u64>) -> Result<(), NoMemory>
    requires { start < 2 ^ 32 }
    ensures { OnOk result (places.new.items ≡ places.old.items ++ range_with_len start 8) }
{
    for block in start..start + CHUNK_BLOCKS {
        places.push(block)?;
    }
    Ok(())
}
