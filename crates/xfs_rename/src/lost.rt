//! Where lost+found stands, and the cluster that is made for it where no inode of a kept one is free.

ghost use Rattle.std.specs.Prelude.{◌≡◌, ◌<◌, ◌⊎◌, [], ◌∷◌, true, slice_get, Some, IfErr, IfOk};
ghost use Rattle.std.specs.List.{All};
ghost use Rattle.xfs_geom.specs.Volumes.{volume_of};
ghost use Rattle.xfs_links.specs.Entries.{AreFiles, is_directory_number};
ghost use Rattle.xfs_names.specs.Wanted.{AreDecided};
ghost use Rattle.xfs_names.specs.declared.place.LostPlace.TheVariants.{Cluster};
ghost use Rattle.xfs_place.specs.Chunks.{asked_rooms};
ghost use Rattle.xfs_place.specs.Pool.{IsRunOf};
ghost use Rattle.xfs_place.specs.declared.faults.PlaceFault.TheVariants as place_fault;
ghost use Rattle.xfs_place.specs.declared.faults.Unplaced.TheVariants.{LostFound};
ghost use Rattle.xfs_rename.specs.Lost.{IsFirst, cluster_ask, cluster_found, lost_in, lost_due, place_due, spared as all_spared};
ghost use Rattle.xfs_changes.specs.Nodes.{first_of_cluster, nodes_of_files};
ghost use Rattle.xfs_rename.specs.Renames.{LacksCluster};

use std::alloc::Global;
use xfs_changes::{Lost, firsts_of_clusters};
use xfs_disk::NoMemory;
use xfs_geom::{Geometry, Run};
use xfs_links::{DecidedNames, NodeRec};
use xfs_names::{LostPlace, lost_place};
use xfs_place::{ChunkAsk, PlaceFault, Unplaced, chunks, spare};
use xfs_rebuild::NamesDue;
use xfs_volume::Records;

/// The blocks of a cluster.
const CLUSTER_BLOCKS: u32 = 4;

/// A number that no inode has.
const NO_INODE: u64 = u32::MAX as u64;

/// Where it stands, by the names that are decided for the files.
///
/// `NoRoom` of lost+found where a cluster is needed and there is none; `NoMemory` where memory is wanting.
pub(crate) fn find_lost(
    alloc: Global,
    g: &Geometry,
    due: &NamesDue,
    nodes: &[NodeRec],
    names: &DecidedNames,
) -> Result<Lost, PlaceFault>
    requires nodes { nodes.now ≡ nodes_of_files due.now.files }
    requires files { AreFiles nodes.now }
    requires root { is_directory_number nodes.now g.now.rootino ≡ true }
    requires decided { AreDecided nodes.now due.now.entries g.now.rootino names.now }
    requires taken { All (IsRunOf g.now.dblocks) due.now.wanted.taken }
    ensures lost { IfOk result (λ lost. lost ≡ lost_due g.now due.now) }
    ensures found { IfOk result (λ lost. LacksCluster g.now due.now → ⊥) }
    ensures cause { IfErr result (λ fault. (fault ≡ place_fault.NoMemory) ⊎ ((fault ≡ place_fault.NoRoom LostFound) × LacksCluster g.now due.now)) }
{
    let spared = spared_of(alloc, g, due)?;
    let place = place_of(alloc, g, due, nodes, names)?;
    lost_in(alloc, g, due, place, spared)
}

/// Where it stands, or whether it needs a new cluster.
fn place_of(
    alloc: Global,
    g: &Geometry,
    due: &NamesDue,
    nodes: &[NodeRec],
    names: &DecidedNames,
) -> Result<LostPlace, NoMemory>
    requires nodes { nodes.now ≡ nodes_of_files due.now.files }
    requires files { AreFiles nodes.now }
    requires root { is_directory_number nodes.now g.now.rootino ≡ true }
    requires decided { AreDecided nodes.now due.now.entries g.now.rootino names.now }
    ensures { IfOk result (λ place. place ≡ place_due g.now due.now) }
{
    let firsts = firsts_of_clusters(alloc, g, due.clusters.as_slice())?;
    Ok(lost_place(nodes, g.rootino, firsts.as_slice(), names))
}

/// A lost+found that stands there.
fn lost_in(
    alloc: Global,
    g: &Geometry,
    due: &NamesDue,
    place: LostPlace,
    spared: Records<u32>,
) -> Result<Lost, PlaceFault>
    requires taken { All (IsRunOf g.now.dblocks) due.now.wanted.taken }
    requires spared { spared ≡ all_spared g.now due.now }
    ensures lost { IfOk result (λ lost. lost ≡ lost_in g.now due.now place) }
    ensures found { IfOk result (λ lost. place ≡ Cluster → cluster_found g.now due.now ≡ [] → ⊥) }
    ensures cause { IfErr result (λ fault. (fault ≡ place_fault.NoMemory)
        ⊎ ((fault ≡ place_fault.NoRoom LostFound) × ((place ≡ Cluster) × (cluster_found g.now due.now ≡ [])))) }
{
    match place {
        LostPlace::Unneeded => Ok(lost_at(alloc, false, NO_INODE, spared)),
        LostPlace::Old(_) => Ok(lost_at(alloc, false, NO_INODE, spared)),
        LostPlace::Slot(ino) => Ok(lost_at(alloc, true, ino, spared)),
        LostPlace::Cluster => lost_in_cluster(alloc, g, due, spared),
    }
}

/// A lost+found for which no cluster is made.
fn lost_at(alloc: Global, made: bool, new: u64, spared: Records<u32>) -> Lost
    ensures { result ≡ record { made = made; new = new; added = []; spared = spared } }
{
    Lost {
        made,
        new,
        added: Records::from_vec(Vec::new(alloc)),
        spared,
    }
}

/// A lost+found in the first inode of a new cluster.
fn lost_in_cluster(
    alloc: Global,
    g: &Geometry,
    due: &NamesDue,
    spared: Records<u32>,
) -> Result<Lost, PlaceFault>
    requires taken { All (IsRunOf g.now.dblocks) due.now.wanted.taken }
    requires spared { spared ≡ all_spared g.now due.now }
    ensures lost { IfOk result (λ lost. lost ≡ lost_in g.now due.now Cluster) }
    ensures found { IfOk result (λ lost. cluster_found g.now due.now ≡ [] → ⊥) }
    ensures cause { IfErr result (λ fault. (fault ≡ place_fault.NoMemory) ⊎ ((fault ≡ place_fault.NoRoom LostFound) × (cluster_found g.now due.now ≡ []))) }
{
    let cluster = find_cluster(alloc, g, due, &spared)?;
    if cluster >= g.dblocks {
        return Err(PlaceFault::NoMemory);
    }
    Ok(lost_of_cluster(alloc, g, cluster, spared)?)
}

/// A lost+found in the first inode of this cluster.
fn lost_of_cluster(
    alloc: Global,
    g: &Geometry,
    cluster: u64,
    spared: Records<u32>,
) -> Result<Lost, NoMemory>
    requires inside { cluster < g.now.dblocks }
    ensures { IfOk result (λ lost. lost ≡ record { made = true; new = first_of_cluster (volume_of g.now) cluster; added = cluster ∷ []; spared = spared }) }
{
    let mut added = Vec::new(alloc);
    added.push(cluster)?;
    Ok(Lost {
        made: true,
        new: g.inode_of_slot(cluster, 0),
        added: Records::from_vec(added),
        spared,
    })
}

/// The first block of the lowest cluster that leaves what is spared, else of the lowest of all.
fn find_cluster(
    alloc: Global,
    g: &Geometry,
    due: &NamesDue,
    spared: &Records<u32>,
) -> Result<u64, PlaceFault>
    requires taken { All (IsRunOf g.now.dblocks) due.now.wanted.taken }
    requires spared { spared.now ≡ all_spared g.now due.now }
    ensures found { IfOk result (λ cluster. cluster_found g.now due.now ≡ cluster ∷ []) }
    ensures cause { IfErr result (λ fault. (fault ≡ place_fault.NoMemory) ⊎ ((fault ≡ place_fault.NoRoom LostFound) × (cluster_found g.now due.now ≡ []))) }
{
    match lowest_cluster(alloc, g, due, spared.as_slice())? {
        Some(cluster) => Ok(cluster),
        None => any_cluster(alloc, g, due),
    }
}

/// The first block of the lowest cluster of all.
fn any_cluster(alloc: Global, g: &Geometry, due: &NamesDue) -> Result<u64, PlaceFault>
    requires taken { All (IsRunOf g.now.dblocks) due.now.wanted.taken }
    ensures found { IfOk result (λ cluster. IsFirst (Some cluster) (asked_rooms (cluster_ask g.now due.now []))) }
    ensures cause { IfErr result (λ fault. (fault ≡ place_fault.NoMemory)
        ⊎ ((fault ≡ place_fault.NoRoom LostFound) × (asked_rooms (cluster_ask g.now due.now []) ≡ []))) }
{
    match lowest_cluster(alloc, g, due, &[])? {
        Some(cluster) => Ok(cluster),
        None => Err(PlaceFault::NoRoom(Unplaced::LostFound)),
    }
}

/// The lowest cluster that leaves these blocks, if there is one.
fn lowest_cluster(
    alloc: Global,
    g: &Geometry,
    due: &NamesDue,
    sparing: &[u32],
) -> Result<Option<u64>, NoMemory>
    requires taken { All (IsRunOf g.now.dblocks) due.now.wanted.taken }
    ensures { IfOk result (λ cluster. IsFirst cluster (asked_rooms (cluster_ask g.now due.now sparing.now))) }
{
    let ask = cluster_ask(alloc, g, due, sparing)?;
    match chunks(alloc, &ask) {
        Ok(starts) => {
            drop(ask);
            Ok(first_of(starts.as_slice()))
        }
        Err(PlaceFault::NoRoom(_)) => {
            drop(ask);
            Ok(None)
        }
        Err(PlaceFault::NoMemory) => {
            drop(ask);
            Err(NoMemory)
        }
    }
}

/// The first of some numbers, where there are some.
fn first_of(starts: &[u64]) -> Option<u64>
    ensures { result ≡ slice_get starts.now 0 }
{
    starts.first().copied()
}

/// What is asked for it.
fn cluster_ask(
    alloc: Global,
    g: &Geometry,
    due: &NamesDue,
    sparing: &[u32],
) -> Result<ChunkAsk, NoMemory>
    ensures { IfOk result (λ ask. ask ≡ cluster_ask g.now due.now sparing.now) }
{
    let taken = Vec::from_slice(alloc, due.wanted.taken.as_slice())?;
    let reserved = Vec::from_slice(alloc, due.wanted.reserved.as_slice())?;
    let spared_from = Vec::from_slice(alloc, sparing)?;
    Ok(ChunkAsk {
        geometry: *g,
        taken: Records::from_vec(taken),
        reserved: Records::from_vec(reserved),
        size: CLUSTER_BLOCKS,
        from: 0,
        spared_from: Records::from_vec(spared_from),
        count: 1,
        what: Unplaced::LostFound,
    })
}

/// Of each group the AG block from which on its blocks are spared.
fn spared_of(alloc: Global, g: &Geometry, due: &NamesDue) -> Result<Records<u32>, NoMemory>
    requires taken { All (IsRunOf g.now.dblocks) due.now.wanted.taken }
    ensures { IfOk result (λ spared. spared ≡ all_spared g.now due.now) }
{
    let spared = spare(
        alloc,
        g,
        due.wanted.taken.as_slice(),
        due.wanted.reserved.as_slice(),
        false,
    )?;
    Ok(spared)
}
