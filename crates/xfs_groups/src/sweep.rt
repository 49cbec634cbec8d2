//! The clusters that the records of owners give, in one sweep over the records of a group.

ghost use Rattle.std.specs.Prelude.{◌≡◌, ◌+◌, ◌^◌, ◌<◌, ◌≤◌, ℕ, drop, length, IfOk};
ghost use Rattle.std.specs.List.{All, list_all, range_with_len};
ghost use Rattle.xfs_geom.specs.Volumes.{volume_of};
ghost use Rattle.xfs_image.specs.Clusters.{given_clusters, is_given_block};
ghost use Rattle.xfs_groups.specs.Named.{RecordsApart, EndBehind, GiveAlike, begins_by, ends_before};

use crate::sets::push_if;
use std::alloc::Global;
use xfs_disk::NoMemory;
use xfs_geom::{Geometry, RmapRec};
use xfs_volume::Blocks;

/// The owner of the clusters of inodes (chapter "Reverse-Mapping B+tree").
const CLUSTERS_OWNER: u64 = u64::MAX - 6;

/// The clusters of a group whose four blocks are given to clusters, by block. The records ascend, and no two have a block in
/// common.
pub(crate) fn given_clusters(
    alloc: Global,
    g: &Geometry,
    ag: u32,
    records: &[RmapRec],
) -> Result<Blocks, NoMemory>
    requires { ag < g.now.agcount }
    ensures given { RecordsApart 0 records.now → IfOk result (λ clusters. clusters ≡ given_clusters (volume_of g.now) ag records.now) }
    ensures low { IfOk result (λ clusters. All (λ cluster. cluster < 2 ^ 32) clusters) }
{
    let start = g.start_of_group(ag);
    let mut clusters = Vec::new(alloc);
    let mut next = 0;
    for i in 0..g.group_length(ag) / 4 {
        next = first_behind(records, next, 4 * i);
        let is_given = are_given(records, next, 4 * i, 4);
        push_if(&mut clusters, is_given, start + 4 * i as u64)?;
    }
    Ok(Blocks::from_vec(clusters))
}

/// Whether so many AG blocks from one on are given by the records from an index on.
fn are_given(records: &[RmapRec], from: usize, place: u32, count: u32) -> bool
    requires from { from ≤ length records.now }
    requires place { place + count < 2 ^ 32 }
    ensures { RecordsApart 0 records.now → result ≡ list_all (is_given_block (drop from records.now)) (range_with_len place count) }
{
    let mut next = from;
    for k in 0..count {
        next = first_behind(records, next, place + k);
        if !is_given_at(records, next, place + k) {
            return false;
        }
    }
    true
}

/// Whether an AG block is given, where the record at an index is the first that ends behind it.
fn is_given_at(records: &[RmapRec], at: usize, block: u32) -> bool
    requires { at ≤ length records.now }
    ensures { RecordsApart 0 (drop at records.now) → EndBehind block (drop at records.now) → result ≡ is_given_block (drop at records.now) block }
{
    if at == records.len() {
        return false;
    }
    begins_by(&records[at], block)
}

/// Whether a record of clusters begins at an AG block or before it.
fn begins_by(run: &RmapRec, block: u32) -> bool
    ensures { result ≡ begins_by block run.now }
{
    run.owner == CLUSTERS_OWNER && run.start <= block
}

/// The index of the first record, from one on, that ends behind an AG block.
#[tactic(auto, using(crate::proofs::Sweeps::passed, crate::proofs::Sweeps::ends_at))]
fn first_behind(records: &[RmapRec], from: usize, block: u32) -> usize
    requires { from ≤ length records.now }
    ensures low { from ≤ result }
    ensures high { result ≤ length records.now }
    ensures behind { EndBehind block (drop result records.now) }
    ensures alike { GiveAlike block (drop from records.now) (drop result records.now) }
{
    let mut next = from;
    while next < records.len() && ends_before(&records[next], block) {
        next += 1;
    }
    next
}

/// Whether a record ends at an AG block or before it.
fn ends_before(run: &RmapRec, block: u32) -> bool
    ensures { result ≡ ends_before block run.now }
{
    run.start as u64 + run.count as u64 <= block as u64
}
