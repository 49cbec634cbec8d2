//! The chunks of inodes of a volume that has some clusters (chapter "AG Inode Management").

ghost use Rattle.std.specs.Prelude.{◌≡◌, ◌++◌, ◌<◌, ◌≤◌, ◌*◌, ◌+◌, ◌^◌, IfOk, OnOk};
ghost use Rattle.std.specs.List.Sorted.{IsNonDecreasingBy};
ghost use Rattle.xfs_geom.specs.Volumes.{volume_of};
ghost use Rattle.xfs_naming.specs.Naming.{NumbersAscend};
ghost use Rattle.xfs_volume.specs.declared.files.FileRec.{FileRec};
ghost use Rattle.xfs_salvage.specs.xfs_laws.Counting.{bit_of, inode_number};
ghost use Rattle.xfs_request.specs.Chunks.{chunk_listed, kept_chunk, counted_chunk, kept_chunks, has_kept_cluster, holes, is_idle, is_inode_used, slot_count, inodes_wanted};
ghost use Rattle.xfs_request.specs.Slots.{AreNumbers};

use crate::links::{is_in_use, numbers_of};
use crate::slots::is_one_of;
use std::alloc::Global;
use xfs_disk::NoMemory;
use xfs_geom::{Geometry, InoRec};
use xfs_place::GroupInodes;
use xfs_salvage::{Salvaged, is_among};
use xfs_volume::Records;

/// The inodes of a chunk, missing ones among them, and its blocks.
const SLOTS: u32 = 64;

const CHUNK_BLOCKS: u32 = 8;

/// The blocks of a cluster.
const CLUSTER_BLOCKS: u64 = 4;

/// The chunks of each group that have a kept cluster.
#[tactic(auto, unfolding(crate::specs::Chunks::inodes_wanted))]
pub fn inodes_wanted(
    alloc: Global,
    g: &Geometry,
    kept: &Salvaged,
) -> Result<Vec<GroupInodes>, NoMemory>
    requires files { IsNonDecreasingBy (λ (f : FileRec). f.ino) kept.now.files }
    requires clusters { NumbersAscend 0 kept.now.clusters }
    ensures { IfOk result (λ groups. groups.items ≡ inodes_wanted (volume_of g.now) kept.now) }
{
    let mut groups = Vec::new(alloc);
    let used = numbers_of(alloc, kept.files.as_slice())?;
    let mut near = 0;
    for ag in 0..g.agcount {
        groups.push(GroupInodes {
            records: kept_chunks(alloc, g, kept, used.as_slice(), &mut near, ag)?,
        })?;
    }
    Ok(groups)
}

/// Those of a group. `near` is a place among the files at which its first may stand.
#[tactic(auto, unfolding(crate::specs::Chunks::kept_chunks))]
fn kept_chunks(
    alloc: Global,
    g: &Geometry,
    kept: &Salvaged,
    used: &[u64],
    near: &mut usize,
    ag: u32,
) -> Result<Records<InoRec>, NoMemory>
    requires used { AreNumbers kept.now.files used.now }
    requires clusters { NumbersAscend 0 kept.now.clusters }
    requires group { ag < g.now.agcount }
    ensures { IfOk result (λ chunks. chunks ≡ kept_chunks (volume_of g.now) kept.now ag) }
{
    let mut chunks = Vec::new(alloc);
    for c in 1..g.group_length(ag) / CHUNK_BLOCKS {
        push_chunk(g, kept, used, near, ag, c, &mut chunks)?;
    }
    Ok(Records::from_vec(chunks))
}

/// Adds a chunk of a group, where it has a kept cluster.
#[tactic(auto, unfolding(crate::specs::Chunks::kept_chunk))]
fn push_chunk(
    g: &Geometry,
    kept: &Salvaged,
    used: &[u64],
    near: &mut usize,
    ag: u32,
    c: u32,
    chunks: &mut Vec<InoRec>,
) -> Result<(), NoMemory>
    requires used { AreNumbers kept.now.files used.now }
    requires clusters { NumbersAscend 0 kept.now.clusters }
    requires group { ag < g.now.agcount }
    requires chunk { c < 2 ^ 24 }
    ensures { OnOk result (chunks.new.items ≡ chunks.old.items ++ chunk_listed (volume_of g.now) kept.now ag c) }
{
    let first = has_kept_cluster(g, kept, ag, c, 0);
    let second = has_kept_cluster(g, kept, ag, c, CLUSTER_BLOCKS);
    if first || second {
        chunks.push(counted_chunk(g, kept, used, near, ag, SLOTS * c, holes(first, second)))?;
    }
    Ok(())
}

/// Whether a cluster of a chunk is kept.
fn has_kept_cluster(g: &Geometry, kept: &Salvaged, ag: u32, c: u32, half: u64) -> bool
    requires clusters { NumbersAscend 0 kept.now.clusters }
    requires group { ag < g.now.agcount }
    requires half { half ≤ 4 }
    ensures { result ≡ has_kept_cluster (volume_of g.now) kept.now ag c half }
{
    let block = g.start_of_group(ag) + 8 * c as u64 + half;
    is_among(kept.clusters.as_slice(), block)
}

/// The bits of missing inodes, one for each four.
fn holes(first: bool, second: bool) -> u16
    ensures { result ≡ holes first second }
{
    let low = if first { 0 } else { 0x00ff };
    let high = if second { 0 } else { 0xff00 };
    low + high
}

/// A chunk with its free inodes.
fn counted_chunk(
    g: &Geometry,
    kept: &Salvaged,
    used: &[u64],
    near: &mut usize,
    ag: u32,
    startino: u32,
    holemask: u16,
) -> InoRec
    requires used { AreNumbers kept.now.files used.now }
    requires group { ag < g.now.agcount }
    ensures { result ≡ counted_chunk (volume_of g.now) kept.now ag startino holemask }
{
    let mut freecount = 0;
    let mut free = 0;
    for inode in 0..SLOTS {
        let bit = bit_of(is_idle(g, kept, used, near, ag, startino, holemask, inode));
        freecount += bit as u8;
        free += bit << inode;
    }
    InoRec {
        startino,
        holemask,
        count: slot_count(holemask),
        freecount,
        free,
    }
}

/// How many inodes a chunk has.
fn slot_count(holemask: u16) -> u8
    ensures { result ≡ slot_count holemask }
{
    if holemask == 0 { 64 } else { 32 }
}

/// 1 where a test passes, else 0.
fn bit_of(passes: bool) -> u64
    ensures value { result ≡ bit_of passes }
    ensures most { result ≤ 1 }
{
    if passes { 1 } else { 0 }
}

/// Whether an inode of a chunk is there and not in use.
fn is_idle(
    g: &Geometry,
    kept: &Salvaged,
    used: &[u64],
    near: &mut usize,
    ag: u32,
    startino: u32,
    holemask: u16,
    inode: u32,
) -> bool
    requires used { AreNumbers kept.now.files used.now }
    requires group { ag < g.now.agcount }
    requires inode { inode < 64 }
    ensures { result ≡ is_idle (volume_of g.now) kept.now ag startino holemask inode }
{
    let is_missing = holemask >> (inode / 4) & 1 == 1;
    !(is_missing
        || is_inode_used(
            kept,
            used,
            near,
            inode_number(g, ag, startino as u64 + inode as u64),
        ))
}

/// Whether an inode is in use: a kept file has its number, or it is made anew.
fn is_inode_used(kept: &Salvaged, used: &[u64], near: &mut usize, ino: u64) -> bool
    requires used { AreNumbers kept.now.files used.now }
    ensures { result ≡ is_inode_used kept.now ino }
{
    is_in_use(used, near, ino) || is_one_of(kept.fresh.as_slice(), ino)
}

/// The number of an inode of a group, by its number inside the group.
fn inode_number(g: &Geometry, ag: u32, agino: u64) -> u64
    requires group { ag < g.now.agcount }
    requires inside { agino < 2 ^ 33 }
    ensures { result ≡ inode_number (volume_of g.now) ag agino }
{
    ag as u64 * (1 << g.agblklog) * 8 + agino
}
