//! What an evidence found, and the blocks that its volume reserves.

ghost use Rattle.std.specs.Prelude.{◌≡◌, IfOk};
ghost use Rattle.xfs_scan.specs.Evidence.{dirs_seen, entries_seen, files_seen};
ghost use Rattle.xfs_rebuild.specs.Found.{reserved_of};

use std::alloc::Global;
use xfs_disk::NoMemory;
use xfs_groups::GroupTrees;
use xfs_salvage::FoundRecords;
use xfs_scan::{Evidence, Lists, Seen};
use xfs_volume::{Blocks, Catalog, ClusterRec, Records};

/// What an evidence found.
pub(crate) fn records_found(evidence: Evidence) -> FoundRecords
    ensures clusters { result.clusters ≡ evidence.clusters }
    ensures files { result.files ≡ files_seen evidence.seen }
    ensures entries { result.entries ≡ entries_seen evidence.seen }
    ensures dirs { result.dirs ≡ dirs_seen evidence.seen }
{
    let Evidence { clusters, seen, .. } = evidence;
    found_of(clusters, seen.into_seen())
}

/// What was found, from the candidate clusters and what was seen of their slots.
fn found_of(clusters: Records<ClusterRec>, seen: Seen) -> FoundRecords
    ensures clusters { result.clusters ≡ clusters }
    ensures files { result.files ≡ files_seen seen }
    ensures entries { result.entries ≡ entries_seen seen }
    ensures dirs { result.dirs ≡ dirs_seen seen }
{
    match seen {
        Seen::Whole(catalog) => {
            let Catalog {
                files,
                entries,
                dirs,
                ..
            } = catalog;
            FoundRecords {
                clusters,
                files,
                entries,
                dirs,
            }
        }
        Seen::Apart(lists, _) => {
            let Lists {
                files,
                entries,
                dirs,
            } = lists;
            FoundRecords {
                clusters,
                files,
                entries,
                dirs,
            }
        }
    }
}

/// The reserved blocks of an evidence's groups, in order.
pub(crate) fn reserved_found(alloc: Global, evidence: &Evidence) -> Result<Blocks, NoMemory>
    ensures { IfOk result (λ blocks. blocks ≡ reserved_of evidence.now.trees) }
{
    reserved_of(alloc, evidence.trees.as_slice())
}

/// The reserved blocks of all groups, in order.
fn reserved_of(alloc: Global, trees: &[GroupTrees]) -> Result<Blocks, NoMemory>
    ensures { IfOk result (λ blocks. blocks ≡ reserved_of trees.now) }
{
    let mut blocks = Vec::new(alloc);
    for group in trees {
        blocks.extend_from_slice(group.reserved.as_slice())?;
    }
    Ok(Records::from_vec(blocks))
}
