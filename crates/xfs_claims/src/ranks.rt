//! The order in which claims are looked at.

ghost use Rattle.std.specs.Prelude.{◌≡◌, not, [], ◌∷◌, ◌++◌, if◌then◌else◌, map, length, IfOk, OnOk};
ghost use Rattle.std.specs.List.{All, filter};
ghost use Rattle.std.specs.List.Sorted.{IsPermutation, IsSorted};
ghost use Rattle.xfs_disk.specs.Lists.{is_among};
ghost use Rattle.xfs_claims.specs.Ranks.{AreDifferent, by_number, first_block, claimed_number, is_other_recorded, is_recorded_cluster, is_scanned_cluster, own_number};
ghost use Rattle.xfs_claims.specs.Private.Places.{file_at_place, ArePlaces, IsFilePlace};
ghost use Rattle.xfs_claims.specs.Private.Ranked.{AreRanked};

use crate::claimants::{Claims, FileClaim};
use rayon::prelude::*;
use std::alloc::{AllocError, Global};
use std::collections::BTreeSet;
use std::thread::Threads;
use xfs_volume::ClusterRec;

/// Where a file stands among all.
#[derive(Clone, Copy, PartialEq, Eq, PartialOrd, Ord)]
pub(crate) struct FilePlace {
    /// The number of its inode.
    pub(crate) number: u64,
    /// Its index.
    pub(crate) at: usize,
}

/// Files in recorded clusters, and files in scanned ones.
#[derive(Drop)]
pub(crate) struct FilePlaces {
    pub(crate) recorded: Vec<FilePlace>,
    pub(crate) scanned: Vec<FilePlace>,
}

impl FilePlaces {
    /// Puts a place behind those in recorded clusters, or behind the others.
    fn put(&mut self, place: FilePlace, is_recorded: bool) -> Result<(), AllocError>
        ensures recorded { OnOk result (self.new.recorded.items ≡ (if is_recorded then self.old.recorded.items ++ place ∷ [] else self.old.recorded.items)) }
        ensures scanned { OnOk result (self.new.scanned.items ≡ (if not is_recorded then self.old.scanned.items ++ place ∷ [] else self.old.scanned.items)) }
    {
        if is_recorded {
            self.recorded.push(place)?;
        } else {
            self.scanned.push(place)?;
        }
        Ok(())
    }
}

/// The claims in the order of their rank, behind the root's cluster.
#[derive(Drop)]
pub(crate) struct Ranks {
    /// The recorded clusters but the root's.
    pub(crate) recorded: Vec<u64>,
    pub(crate) scanned: Vec<u64>,
    pub(crate) files: FilePlaces,
}

/// The items in ascending order.
fn sorted<R: Threads + Sync, T: Ord + Send + Drop>(rt: &R, items: Vec<T>) -> Vec<T>
    ensures moved { IsPermutation items.items result.items }
    ensures ascending { IsSorted T.cmp result.items }
{
    let mut items = items;
    par_sort_unstable(rt, items.as_mut_slice());
    items
}

/// Different numbers in ascending order.
fn numbers_in_order<R: Threads + Sync>(rt: &R, numbers: Vec<u64>) -> Vec<u64>
    requires { AreDifferent own_number numbers.items }
    ensures { result.items ≡ by_number own_number numbers.items }
{
    sorted(rt, numbers)
}

/// Whether a cluster is recorded and not the root's.
fn is_other(cluster: &ClusterRec, root: u64) -> bool
    ensures { result ≡ is_other_recorded root cluster.now }
{
    cluster.recorded && cluster.block != root
}

/// The recorded clusters but the root's.
fn other_recorded(alloc: Global, clusters: &[ClusterRec], root: u64) -> Result<Vec<u64>, AllocError>
    ensures { IfOk result (λ blocks. blocks.items ≡ map first_block (filter (is_other_recorded root) clusters.now)) }
{
    let mut blocks = Vec::new(alloc);
    for cluster in clusters {
        if is_other(cluster, root) {
            blocks.push(cluster.block)?;
        }
    }
    Ok(blocks)
}

/// The scanned clusters.
fn scanned(alloc: Global, clusters: &[ClusterRec]) -> Result<Vec<u64>, AllocError>
    ensures { IfOk result (λ blocks. blocks.items ≡ map first_block (filter is_scanned_cluster clusters.now)) }
{
    let mut blocks = Vec::new(alloc);
    for cluster in clusters {
        if !cluster.recorded {
            blocks.push(cluster.block)?;
        }
    }
    Ok(blocks)
}

/// The recorded clusters but the root's, ascending.
pub(crate) fn recorded_in_order<R: Threads + Sync>(
    rt: &R,
    alloc: Global,
    clusters: &[ClusterRec],
    root: u64,
) -> Result<Vec<u64>, AllocError>
    requires { AreDifferent first_block clusters.now }
    ensures { IfOk result (λ blocks. blocks.items ≡ by_number own_number (map first_block (filter (is_other_recorded root) clusters.now))) }
{
    let blocks = other_recorded(alloc, clusters, root)?;
    Ok(numbers_in_order(rt, blocks))
}

/// The scanned clusters, ascending.
pub(crate) fn scanned_in_order<R: Threads + Sync>(
    rt: &R,
    alloc: Global,
    clusters: &[ClusterRec],
) -> Result<Vec<u64>, AllocError>
    requires { AreDifferent first_block clusters.now }
    ensures { IfOk result (λ blocks. blocks.items ≡ by_number own_number (map first_block (filter is_scanned_cluster clusters.now))) }
{
    let blocks = scanned(alloc, clusters)?;
    Ok(numbers_in_order(rt, blocks))
}

/// The first blocks of the recorded clusters.
pub(crate) fn recorded_blocks(
    alloc: Global,
    clusters: &[ClusterRec],
) -> Result<BTreeSet<u64>, AllocError>
    ensures { IfOk result (λ blocks. (b : _) → is_among blocks.keys b ≡ is_recorded_cluster clusters.now b) }
{
    let mut blocks = BTreeSet::new(alloc);
    for cluster in clusters {
        if cluster.recorded {
            blocks.insert(cluster.block)?;
        }
    }
    Ok(blocks)
}

/// The places of the files, in their order.
fn places_of(
    alloc: Global,
    files: &[FileClaim],
    recorded: &BTreeSet<u64>,
) -> Result<FilePlaces, AllocError>
    ensures recorded { IfOk result (λ places. ArePlaces files.now (λ f. is_among recorded.now.keys f.cluster) (length files.now) places.recorded.items) }
    ensures scanned { IfOk result (λ places. ArePlaces files.now (λ f. not (is_among recorded.now.keys f.cluster)) (length files.now) places.scanned.items) }
{
    let mut places = FilePlaces {
        recorded: Vec::new(alloc),
        scanned: Vec::new(alloc),
    };
    for (at, file) in files.iter().enumerate() {
        let place = FilePlace {
            number: file.ino,
            at,
        };
        let is_recorded = recorded.contains(&file.cluster);
        places.put(place, is_recorded)?;
    }
    Ok(places)
}

/// Places of different files in ascending order of their numbers.
fn places_in_order<R: Threads + Sync>(
    rt: &R,
    files: &[FileClaim],
    places: Vec<FilePlace>,
) -> Vec<FilePlace>
    requires each { All (IsFilePlace files.now) places.items }
    requires differ { AreDifferent claimed_number (map (file_at_place files.now) places.items) }
    ensures each { All (IsFilePlace files.now) result.items }
    ensures ascending { map (file_at_place files.now) result.items ≡ by_number claimed_number (map (file_at_place files.now) places.items) }
{
    let _ = files;
    sorted(rt, places)
}

/// The places of different files, ascending by number.
fn files_by_number<R: Threads + Sync>(
    rt: &R,
    alloc: Global,
    files: &[FileClaim],
    recorded: &BTreeSet<u64>,
) -> Result<FilePlaces, AllocError>
    requires { AreDifferent claimed_number files.now }
    ensures recorded { IfOk result (λ places. map (file_at_place files.now) places.recorded.items ≡ by_number claimed_number (filter (λ f. is_among recorded.now.keys f.cluster) files.now)) }
    ensures scanned { IfOk result (λ places. map (file_at_place files.now) places.scanned.items ≡ by_number claimed_number (filter (λ f. not (is_among recorded.now.keys f.cluster)) files.now)) }
    ensures recorded_places { IfOk result (λ places. All (IsFilePlace files.now) places.recorded.items) }
    ensures scanned_places { IfOk result (λ places. All (IsFilePlace files.now) places.scanned.items) }
{
    let FilePlaces { recorded, scanned } = places_of(alloc, files, recorded)?;
    let recorded = places_in_order(rt, files, recorded);
    let scanned = places_in_order(rt, files, scanned);
    Ok(FilePlaces { recorded, scanned })
}

/// The claims in the order of their rank.
pub(crate) fn rank<R: Threads + Sync>(
    rt: &R,
    alloc: Global,
    claims: &Claims,
) -> Result<Ranks, AllocError>
    requires clusters_differ { AreDifferent first_block claims.now.clusters }
    requires files_differ { AreDifferent claimed_number claims.now.files }
    ensures { IfOk result (λ ranks. AreRanked claims.now ranks) }
{
    let clusters = claims.clusters.as_slice();
    let recorded = recorded_in_order(rt, alloc, clusters, claims.root)?;
    let scanned = scanned_in_order(rt, alloc, clusters)?;
    let blocks = recorded_blocks(alloc, clusters)?;
    let files = files_by_number(rt, alloc, claims.files.as_slice(), &blocks)?;
    Ok(Ranks {
        recorded,
        scanned,
        files,
    })
}
