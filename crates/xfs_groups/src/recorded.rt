//! The clusters of a group that says in full where its clusters are.

ghost use Rattle.std.specs.Prelude.{◌≡◌, ◌+◌, ◌/◌, ◌<◌, ◌≤◌, ◌++◌, ◌∷◌, [], if◌then◌else◌, true, false, IfOk, OnOk};
ghost use Rattle.std.specs.Option.{ForSome};
ghost use Rattle.xfs_disk.specs.Faults.{HasCause};
ghost use Rattle.xfs_geom.specs.Conversions.{group_length};
ghost use Rattle.xfs_geom.specs.Volumes.{volume_of};
ghost use Rattle.xfs_image.specs.Candidates.{has_whole_seal, lies_in_chunk};
ghost use Rattle.xfs_image.specs.Clusters.{root_cluster};
ghost use Rattle.xfs_disk.specs.Reads.{OnlyReads};
ghost use Rattle.xfs_groups.specs.Answers.{HasGroupsCause, are_bare, hold_no_object};
ghost use Rattle.xfs_groups.specs.Private.Chosen.{ClustersPlaced, are_clear, can_hold_cluster, chosen, chosen_rec, is_chosen_where};

use crate::faults::GroupsFault;
use crate::looking::look_whole;
use crate::sets::{BlockSet, first_from, stands_at};
use std::alloc::Global;
use std::sync::ledger::Ledger;
use xfs_collections::Steps;
use xfs_disk::{Disk, Failed, NoMemory};
use xfs_geom::Geometry;
use xfs_volume::ClusterRec;

/// The clusters of a group whose slots are read, where its trees name these clusters and all are named. Whether a block is sealed as one
/// object is not asked where `looks` is false.
pub(crate) fn recorded_clusters<D: Disk, L: Ledger>(
    alloc: Global,
    g: &Geometry,
    disk: &mut D,
    ag: u32,
    named: &BlockSet,
    looks: bool,
    steps: &mut Steps<L>,
) -> Result<Vec<ClusterRec>, GroupsFault>
    requires group { ag < g.now.agcount }
    requires inside { g.now.dblocks ≤ D.size disk.old }
    ensures chosen { IfOk result (λ clusters. ForSome (D.holds disk.old) (λ image.
        (looks ≡ false → hold_no_object (volume_of g.now) image clusters.items ≡ true)
        → clusters.items ≡ chosen (volume_of g.now) image true named.now ag (group_length (volume_of g.now) ag / 4))) }
    ensures placed { IfOk result (λ clusters. ClustersPlaced (volume_of g.now) ag (group_length (volume_of g.now) ag / 4) clusters.items) }
    ensures cause { HasGroupsCause (D.faults disk.old) (D.faults disk.new) result }
    ensures disk { OnlyReads D.size D.holds D.write_faults D.writes D.tells_stops D.moment D.may_leave D.left_since disk.old disk.new }
    ensures reads { D.reads disk.new + steps.old ≤ D.reads disk.old + steps.new }
{
    let start = g.start_of_group(ag);
    let Ok(places) = named.within(alloc, start, g.group_length(ag)) else {
        return Err(GroupsFault::NoMemory);
    };
    let root = root_cluster(g);
    let mut clusters = Vec::new(alloc);
    let mut next = 0;
    for i in 0..g.group_length(ag) / 4 {
        let cluster = start + 4 * i as u64;
        next = first_from(&places, next, cluster);
        let is_named = stands_at(&places, next, cluster);
        let is_chosen = match is_chosen(g, disk, cluster, root, is_named, looks, steps) {
            Ok(is_chosen) => is_chosen,
            Err(Failed) => return Err(GroupsFault::ReadFault),
        };
        match push_chosen(&mut clusters, g, named, cluster, is_chosen) {
            Ok(()) => {}
            Err(NoMemory) => return Err(GroupsFault::NoMemory),
        }
    }
    Ok(clusters)
}

/// Whether the slots of a cluster are read: it is the root's, or it is named, lies in a chunk and is clear. The blocks of no
/// other cluster are read.
fn is_chosen<D: Disk, L: Ledger>(
    g: &Geometry,
    disk: &mut D,
    cluster: u64,
    root: u64,
    is_named: bool,
    looks: bool,
    steps: &mut Steps<L>,
) -> Result<bool, Failed>
    requires root { root ≡ root_cluster (volume_of g.now) }
    requires cluster { cluster + 4 ≤ g.now.dblocks }
    requires inside { g.now.dblocks ≤ D.size disk.old }
    ensures chosen { IfOk result (λ is. ForSome (D.holds disk.old) (λ image.
        (is ≡ true → looks ≡ false → are_bare (volume_of g.now) image cluster 4 ≡ true) → is ≡ is_chosen_where (volume_of g.now) image is_named cluster)) }
    ensures root { IfOk result (λ is. cluster ≡ root_cluster (volume_of g.now) → is ≡ true) }
    ensures cause { HasCause (D.faults disk.old) (D.faults disk.new) result }
    ensures disk { OnlyReads D.size D.holds D.write_faults D.writes D.tells_stops D.moment D.may_leave D.left_since disk.old disk.new }
    ensures reads { D.reads disk.new + steps.old ≤ D.reads disk.old + steps.new }
{
    if cluster == root {
        return Ok(true);
    }
    if !is_named {
        return Ok(false);
    }
    if !lies_in_chunk(g, cluster) {
        return Ok(false);
    }
    are_clear(g, disk, cluster, 4, looks, steps)
}

/// Whether none of so many blocks from one on has a fixed use or is sealed as one object.
fn are_clear<D: Disk, L: Ledger>(
    g: &Geometry,
    disk: &mut D,
    first: u64,
    count: u64,
    looks: bool,
    steps: &mut Steps<L>,
) -> Result<bool, Failed>
    requires blocks { first + count ≤ g.now.dblocks }
    requires inside { g.now.dblocks ≤ D.size disk.old }
    ensures clear { IfOk result (λ clear. ForSome (D.holds disk.old) (λ image.
        (clear ≡ true → looks ≡ false → are_bare (volume_of g.now) image first count ≡ true) → clear ≡ are_clear (volume_of g.now) image first count)) }
    ensures cause { HasCause (D.faults disk.old) (D.faults disk.new) result }
    ensures disk { OnlyReads D.size D.holds D.write_faults D.writes D.tells_stops D.moment D.may_leave D.left_since disk.old disk.new }
    ensures reads { D.reads disk.new + steps.old ≤ D.reads disk.old + steps.new }
{
    for k in 0..count {
        match can_hold_cluster(g, disk, first + k, looks, steps) {
            Ok(true) => {}
            Ok(false) => return Ok(false),
            Err(Failed) => return Err(Failed),
        }
    }
    Ok(true)
}

/// Whether a block has no fixed use and is not sealed as one object, as far as that is looked at.
fn can_hold_cluster<D: Disk, L: Ledger>(
    g: &Geometry,
    disk: &mut D,
    block: u64,
    looks: bool,
    steps: &mut Steps<L>,
) -> Result<bool, Failed>
    requires block { block < g.now.dblocks }
    requires inside { g.now.dblocks ≤ D.size disk.old }
    ensures clear { IfOk result (λ clear. ForSome (D.holds disk.old) (λ image.
        (clear ≡ true → looks ≡ false → has_whole_seal (volume_of g.now) image block ≡ false) → clear ≡ can_hold_cluster (volume_of g.now) image block)) }
    ensures cause { HasCause (D.faults disk.old) (D.faults disk.new) result }
    ensures disk { OnlyReads D.size D.holds D.write_faults D.writes D.tells_stops D.moment D.may_leave D.left_since disk.old disk.new }
    ensures reads { D.reads disk.new + steps.old ≤ D.reads disk.old + steps.new }
{
    if g.is_fixed(block) {
        return Ok(false);
    }
    if !looks {
        return Ok(true);
    }
    match look_whole(g, disk, block, steps) {
        Ok(whole) => Ok(!whole),
        Err(Failed) => Err(Failed),
    }
}

/// Adds a cluster, where its slots are read.
pub(crate) fn push_chosen(
    clusters: &mut Vec<ClusterRec>,
    g: &Geometry,
    named: &BlockSet,
    cluster: u64,
    is_chosen: bool,
) -> Result<(), NoMemory>
    ensures { OnOk result (clusters.new.items ≡ clusters.old.items ++ (if is_chosen then (chosen_rec (volume_of g.now) named.now cluster ∷ []) else [])) }
{
    if is_chosen {
        clusters.push(ClusterRec {
            block: cluster,
            recorded: cluster == root_cluster(g) || named.has(cluster),
        })?;
    }
    Ok(())
}

/// Whether a cluster lies in a chunk of its group, behind the first eight blocks of it (chapter "AG Inode Management").
pub(crate) fn lies_in_chunk(g: &Geometry, cluster: u64) -> bool
    requires { cluster < g.now.dblocks }
    ensures { result ≡ lies_in_chunk (volume_of g.now) cluster }
{
    let place = (cluster % g.agblocks as u64) as u32;
    let ag = (cluster / g.agblocks as u64) as u32;
    8 <= place && place / 8 * 8 + 8 <= g.group_length(ag)
}

/// The first block of the cluster of the root.
pub(crate) fn root_cluster(g: &Geometry) -> u64
    ensures { result ≡ root_cluster (volume_of g.now) }
{
    g.number_of_address(g.rootino / 32 * 4)
}
