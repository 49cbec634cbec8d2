//! The clusters that the trees of a group name, and whether a group says in full where its clusters are.

ghost use Rattle.std.specs.Prelude.{◌≡◌, ◌++◌, ◌*◌, ◌^◌, ◌<◌, ◌||◌, ℕ, IfOk, IfSome, OnOk, option_map};
ghost use Rattle.std.specs.List.{All, list_all};
ghost use Rattle.xfs_disk.specs.Lists.{is_among};
ghost use Rattle.xfs_geom.specs.Volumes.{volume_of};
ghost use Rattle.xfs_image.specs.Clusters.{same_clusters, both_name, chunk_clusters, clusters_in, given_clusters};
ghost use Rattle.xfs_image.specs.Reserved.{is_of_named, is_of_tree};
ghost use Rattle.xfs_groups.specs.Named.{AreOwnersApart, chunks_in, is_named, named_in, owners_in};

use crate::sets::{BlockList, BlockSet};
use crate::sweep::given_clusters;
use crate::trees::TreeSeen;
use std::alloc::Global;
use xfs_disk::NoMemory;
use xfs_geom::{Geometry, InoRec, RmapRec};
use xfs_kinds::is_missing;
use xfs_volume::Blocks;

/// The clusters that the two trees of a group name, each where it reads.
#[derive(Drop)]
pub(crate) struct Named {
    pub chunks: Option<Blocks>,
    pub owners: Option<Blocks>,
}

/// The clusters of the chunks of a tree, where it reads.
fn named_by_chunks(
    alloc: Global,
    g: &Geometry,
    ag: u32,
    tree: &Option<TreeSeen<InoRec>>,
) -> Result<Option<Blocks>, NoMemory>
    requires { ag < g.now.agcount }
    ensures named { IfOk result (λ named. named ≡ option_map (λ tree. chunk_clusters (volume_of g.now) ag tree.records) tree.now) }
    ensures low { IfOk result (λ named. IfSome named (λ clusters. All (λ cluster. cluster < 2 ^ 32) clusters)) }
{
    match tree {
        None => Ok(None),
        Some(tree) => {
            let clusters = chunk_clusters(alloc, g, ag, tree.records())?;
            Ok(Some(clusters))
        }
    }
}

/// The clusters that a tree of owners gives, where it reads.
fn named_by_owners(
    alloc: Global,
    g: &Geometry,
    ag: u32,
    tree: &Option<TreeSeen<RmapRec>>,
) -> Result<Option<Blocks>, NoMemory>
    requires { ag < g.now.agcount }
    ensures named { AreOwnersApart tree.now → IfOk result (λ named. named ≡ option_map (λ tree. given_clusters (volume_of g.now) ag tree.records) tree.now) }
    ensures low { IfOk result (λ named. IfSome named (λ clusters. All (λ cluster. cluster < 2 ^ 32) clusters)) }
{
    match tree {
        None => Ok(None),
        Some(tree) => {
            let clusters = given_clusters(alloc, g, ag, tree.records())?;
            Ok(Some(clusters))
        }
    }
}

/// The clusters that two trees of a group name, each where it reads.
pub(crate) fn named_by(
    alloc: Global,
    g: &Geometry,
    ag: u32,
    ino: &Option<TreeSeen<InoRec>>,
    rmap: &Option<TreeSeen<RmapRec>>,
) -> Result<Named, NoMemory>
    requires { ag < g.now.agcount }
    ensures chunks { IfOk result (λ named. named.chunks ≡ chunks_in (volume_of g.now) ag ino.now) }
    ensures owners { AreOwnersApart rmap.now → IfOk result (λ named. named.owners ≡ owners_in (volume_of g.now) ag rmap.now) }
    ensures low_chunks { IfOk result (λ named. IfSome named.chunks (λ clusters. All (λ cluster. cluster < 2 ^ 32) clusters)) }
    ensures low_owners { IfOk result (λ named. IfSome named.owners (λ clusters. All (λ cluster. cluster < 2 ^ 32) clusters)) }
{
    let chunks = named_by_chunks(alloc, g, ag, ino)?;
    let owners = named_by_owners(alloc, g, ag, rmap)?;
    Ok(Named { chunks, owners })
}

/// The clusters of some chunks of a group, in order.
fn chunk_clusters(
    alloc: Global,
    g: &Geometry,
    ag: u32,
    chunks: &[InoRec],
) -> Result<Blocks, NoMemory>
    requires { ag < g.now.agcount }
    ensures named { IfOk result (λ clusters. clusters ≡ chunk_clusters (volume_of g.now) ag chunks.now) }
    ensures low { IfOk result (λ clusters. All (λ cluster. cluster < 2 ^ 32) clusters) }
{
    let base = g.start_of_group(ag);
    let mut clusters = Vec::new(alloc);
    for chunk in chunks {
        push_clusters(base, chunk, &mut clusters)?;
    }
    Ok(Blocks::from_vec(clusters))
}

/// Adds the clusters of a chunk of a group that begins at a block.
fn push_clusters(base: u64, chunk: &InoRec, clusters: &mut Vec<u64>) -> Result<(), NoMemory>
    requires base { base < 2 ^ 26 }
    requires low { All (λ cluster. cluster < 2 ^ 32) clusters.old.items }
    ensures more { OnOk result (clusters.new.items ≡ clusters.old.items ++ clusters_in base chunk.now) }
    ensures low { OnOk result (All (λ cluster. cluster < 2 ^ 32) clusters.new.items) }
{
    let first = base + chunk.startino as u64 / 8;
    if !is_missing(chunk.holemask, 0) {
        clusters.push(first)?;
    }
    if !is_missing(chunk.holemask, 8) {
        clusters.push(first + 4)?;
    }
    Ok(())
}

impl Named {
    /// Whether both trees read and name the same clusters.
    pub fn is_trusted(&self, alloc: Global) -> Result<bool, NoMemory>
        ensures { IfOk result (λ trusted. trusted ≡ both_name self.now.chunks self.now.owners) }
    {
        let Some(chunks) = &self.chunks else {
            return Ok(false);
        };
        match &self.owners {
            None => Ok(false),
            Some(owners) => same_clusters(alloc, chunks.as_slice(), owners.as_slice()),
        }
    }

    /// The clusters that a tree names.
    pub fn clusters(&self, alloc: Global) -> Result<BlockSet, NoMemory>
        ensures { IfOk result (λ set. (q : ℕ) → is_among set q ≡ is_named self.now.chunks self.now.owners q) }
    {
        let mut list = BlockList::new(alloc);
        list.add_both(named_in(&self.chunks), named_in(&self.owners))?;
        list.into_set(alloc)
    }
}

/// The clusters that a tree names, none where it does not read.
fn named_in(named: &Option<Blocks>) -> &[u64]
    ensures { result.now ≡ named_in named.now }
{
    match named {
        None => &[],
        Some(clusters) => clusters.as_slice(),
    }
}

/// Whether two lists name the same clusters.
fn same_clusters(alloc: Global, xs: &[u64], ys: &[u64]) -> Result<bool, NoMemory>
    ensures { IfOk result (λ same. same ≡ same_clusters xs.now ys.now) }
{
    if xs == ys {
        return Ok(true);
    }
    if !are_among(alloc, xs, ys)? {
        return Ok(false);
    }
    are_among(alloc, ys, xs)
}

/// Whether each of some clusters is one of others.
fn are_among(alloc: Global, xs: &[u64], ys: &[u64]) -> Result<bool, NoMemory>
    ensures { IfOk result (λ among. among ≡ list_all (is_among ys.now) xs.now) }
{
    let mut list = BlockList::new(alloc);
    list.add_all(ys)?;
    let set = list.into_set(alloc)?;
    for cluster in xs {
        if !set.has(*cluster) {
            return Ok(false);
        }
    }
    Ok(true)
}

/// The blocks of the tree of chunks and that of owners, each where it reads, and of the clusters that they name.
pub(crate) fn held_by_trees(
    alloc: Global,
    ino: &Option<TreeSeen<InoRec>>,
    rmap: &Option<TreeSeen<RmapRec>>,
    named: &Named,
) -> Result<BlockSet, NoMemory>
    requires chunks { IfSome named.now.chunks (λ clusters. All (λ cluster. cluster < 2 ^ 32) clusters) }
    requires owners { IfSome named.now.owners (λ clusters. All (λ cluster. cluster < 2 ^ 32) clusters) }
    ensures { IfOk result (λ set. (q : ℕ) → is_among set q
        ≡ (is_of_tree ino.now q || is_of_tree rmap.now q || is_of_named named.now.chunks q || is_of_named named.now.owners q)) }
{
    let mut list = BlockList::new(alloc);
    add_tree(&mut list, ino)?;
    add_tree(&mut list, rmap)?;
    list.add_both_clusters(named_in(&named.chunks), named_in(&named.owners))?;
    list.into_set(alloc)
}

/// Adds the blocks of a tree, where it reads.
fn add_tree<R: Drop>(list: &mut BlockList, tree: &Option<TreeSeen<R>>) -> Result<(), NoMemory>
    ensures { OnOk result ((q : ℕ) → is_among list.new q ≡ (is_among list.old q || is_of_tree tree.now q)) }
{
    match tree {
        None => Ok(()),
        Some(tree) => list.add_all(tree.blocks()),
    }
}
