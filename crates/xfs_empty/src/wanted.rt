//! What is placed in an empty volume: the first chunk of inodes, and the trees of its groups.

ghost use Rattle.std.specs.Prelude.{◌≡◌, map, IfOk};
ghost use Rattle.std.specs.List.{range_with_len};
ghost use Rattle.xfs_empty.specs.Placing.{all_inodes, chunks_of, empty_wanted, group_inodes};

use crate::roots::ROOT_INODE;
use std::alloc::Global;
use xfs_disk::NoMemory;
use xfs_geom::{Geometry, InoRec, Run};
use xfs_place::{GroupInodes, Wanted};
use xfs_volume::Records;

/// The owner of the blocks of inodes (chapter "Reverse-Mapping B+tree").
const INODES: u64 = u64::MAX - 6;

/// The first block of the first chunk, its blocks, and the AG block behind it.
pub const FIRST_CHUNK: u64 = 16;

pub const CHUNK_BLOCKS: u64 = 8;

const BEHIND_CHUNK: u32 = 24;

/// What is placed in an empty volume of this geometry, whose root inode is 128.
pub fn empty_wanted(alloc: Global, g: &Geometry) -> Result<Wanted, NoMemory>
    ensures { IfOk result (λ wanted. wanted ≡ empty_wanted g.now) }
{
    let chunk = Run {
        start: FIRST_CHUNK,
        count: CHUNK_BLOCKS,
        owner: INODES,
        offset_word: 0,
    };
    let inodes = list_inodes(alloc, g.agcount)?;
    let first = vec![in alloc; chunk]?;
    Ok(Wanted {
        geometry: *g,
        taken: Records::from_vec(Vec::new(alloc)),
        new: Records::from_vec(first),
        reserved: Records::from_vec(Vec::new(alloc)),
        from: BEHIND_CHUNK,
        spared_from: Records::from_vec(Vec::new(alloc)),
        takes_spared: false,
        objects: Records::from_vec(Vec::new(alloc)),
        inodes: Records::from_vec(inodes),
    })
}

/// The records of inodes of so many groups: the first chunk in the first, of which three inodes are in use.
fn list_inodes(alloc: Global, agcount: u32) -> Result<Vec<GroupInodes>, NoMemory>
    ensures { IfOk result (λ groups. groups.items ≡ all_inodes agcount) }
{
    let mut groups = Vec::new(alloc);
    for ag in 0..agcount {
        groups.push(GroupInodes {
            records: Records::from_vec(list_records(alloc, ag)?),
        })?;
    }
    Ok(groups)
}

/// The records of inodes of a group.
fn list_records(alloc: Global, ag: u32) -> Result<Vec<InoRec>, NoMemory>
    ensures { IfOk result (λ records. records.items ≡ chunks_of ag) }
{
    let mut records = Vec::new(alloc);
    if ag == 0 {
        records.push(InoRec {
            startino: ROOT_INODE as u32,
            holemask: 0,
            count: 64,
            freecount: 61,
            free: u64::MAX - 7,
        })?;
    }
    Ok(records)
}
