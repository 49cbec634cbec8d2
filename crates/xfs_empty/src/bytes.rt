//! What the blocks of an empty volume are made of.

ghost use Rattle.std.specs.Prelude.{◌≡◌, IfOk};
ghost use Rattle.xfs_empty.specs.Bytes.{AreFirstSlots, IsEmptyBytes, empty_places};

use crate::roots::{ROOT_INODE, first_slot};
use crate::wanted::{CHUNK_BLOCKS, FIRST_CHUNK};
use std::alloc::Global;
use xfs_collections::BlockList;
use xfs_disk::{NoMemory, Stamp};
use xfs_geom::Geometry;
use xfs_render::{Bytes, SlotWanted};
use xfs_volume::Records;

/// The slots of the first chunk.
const CHUNK_SLOTS: u64 = 64;

/// What the blocks of an empty volume are made of, with this superblock: blocks that were zeros, the first chunk of
/// inodes, and a blank log of cycle 1.
pub fn empty_bytes(
    alloc: Global,
    g: &Geometry,
    sector: &[u8; 512],
    stamp: &Stamp,
) -> Result<Bytes, NoMemory>
    ensures { IfOk result (λ bytes. IsEmptyBytes g.now sector.now stamp.now bytes) }
{
    let places = list_places(alloc, g)?;
    let old = BlockList::zeros(alloc, places.len())?;
    let slots = list_slots(alloc, g, stamp)?;
    Ok(Bytes {
        sector: *sector,
        places: Records::from_vec(places),
        old,
        objects: BlockList::make(alloc),
        slots: Records::from_vec(slots),
        cycle: Some(1),
        stamp: *stamp,
    })
}

/// The first block of each group, and behind these the blocks of the first chunk.
fn list_places(alloc: Global, g: &Geometry) -> Result<Vec<u64>, NoMemory>
    ensures { IfOk result (λ places. places.items ≡ empty_places g.now) }
{
    let mut places = Vec::new(alloc);
    for ag in 0..g.agcount {
        places.push(ag as u64 * g.agblocks as u64)?;
    }
    for block in FIRST_CHUNK..FIRST_CHUNK + CHUNK_BLOCKS {
        places.push(block)?;
    }
    Ok(places)
}

/// What is wanted of the slots of the first chunk.
fn list_slots(alloc: Global, g: &Geometry, stamp: &Stamp) -> Result<Vec<SlotWanted>, NoMemory>
    ensures { IfOk result (λ slots. AreFirstSlots g.now stamp.now slots.items) }
{
    let mut slots = Vec::new(alloc);
    for ino in ROOT_INODE..ROOT_INODE + CHUNK_SLOTS {
        slots.push(first_slot(alloc, g, stamp, ino)?)?;
    }
    Ok(slots)
}
