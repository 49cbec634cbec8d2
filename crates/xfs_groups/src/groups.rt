//! All groups of a volume.

ghost use Rattle.std.specs.Prelude.{◌≡◌, ◌+◌, ◌/◌, ◌<◌, ◌≤◌, ◌++◌, ◌∷◌, [], true, false, Ok, IfOk, IsTrue};
ghost use Rattle.std.specs.Option.{ForSome};
ghost use Rattle.xfs_geom.specs.Conversions.{group_length};
ghost use Rattle.xfs_geom.specs.Volumes.{volume_of};
ghost use Rattle.xfs_disk.specs.Reads.{OnlyReads};
ghost use Rattle.xfs_image.specs.Candidates.{ClustersAscend, candidates};
ghost use Rattle.xfs_image.specs.Groups.{group_read, groups_read};
ghost use Rattle.xfs_image.specs.Reserved.{reserved_in};
ghost use Rattle.xfs_groups.specs.Answers.{EndBelow, HasGroupsCause, has_root_cluster, hold_no_object, lists_of, reserved_lists};
ghost use Rattle.xfs_groups.specs.Private.Chosen.{WithPlaced, candidates_in};
ghost use Rattle.xfs_groups.specs.Private.Parts.{then_read};
ghost use Rattle.xfs_groups.specs.Private.ReadGroups.{ArePartsRead};

use crate::faults::GroupsFault;
use crate::forests::read_forests;
use crate::heads::{Heads, read_all_heads};
use crate::one_group::{GroupSeen, see_group};
use crate::trees::Trees;
use std::alloc::Global;
use std::sync::ledger::Ledger;
use std::thread::Threads;
use xfs_collections::Steps;
use xfs_disk::{Disk, Gate, NoMemory};
use xfs_geom::Geometry;
use xfs_image::Finding;
use xfs_volume::{Blocks, ClusterRec, GroupRec, Records};

/// What is known of the blocks of one group.
#[derive(Drop)]
pub struct GroupTrees {
    /// The numbers of the blocks on which nothing new is placed, ascending.
    pub reserved: Blocks,
}

/// The groups of a volume.
#[derive(Drop)]
pub struct Groups {
    /// Each group, or the first part that does not read.
    pub groups: Result<Records<GroupRec>, Finding>,
    /// The clusters whose slots are read, by block.
    pub clusters: Records<ClusterRec>,
    /// Of each group, in order.
    pub trees: Records<GroupTrees>,
}

/// Reads the groups of a volume (chapters "Allocation Groups", "AG Inode Management" and "Reverse-Mapping B+tree").
/// `ReadFault` only where a read failed. Each block that is read counts as a step, also where the read fails.
///
/// The headers of all groups are read first, then their trees, by kind, those of all groups together; only then are groups looked
/// through. The blocks of trees are judged in pieces by so many workers, each of which goes through the gate first.
///
/// Where a group's trees say in full where its clusters are, no block of these is looked at unless `looks` says so: the clusters are then
/// those whose slots are read if none of their blocks is sealed as one object, which whoever reads the slots sees for nothing.
pub fn see_groups<R: Threads + Sync, D: Disk, G: Gate, L: Ledger>(
    rt: &R,
    alloc: Global,
    g: &Geometry,
    disk: &mut D,
    looks: bool,
    workers: u32,
    gate: &G,
    steps: &mut Steps<L>,
) -> Result<Groups, GroupsFault>
    requires inside { g.now.dblocks ≤ D.size disk.old }
    ensures groups { IfOk result (λ seen. ForSome (D.holds disk.old) (λ image. seen.groups ≡ groups_read (volume_of g.now) image)) }
    ensures clusters { IfOk result (λ seen. ForSome (D.holds disk.old) (λ image.
        (looks ≡ false → hold_no_object (volume_of g.now) image seen.clusters ≡ true) → seen.clusters ≡ candidates (volume_of g.now) image)) }
    ensures trees { IfOk result (λ seen. ForSome (D.holds disk.old) (λ image. lists_of seen.trees ≡ reserved_lists (volume_of g.now) image)) }
    ensures ascend { IfOk result (λ seen. ClustersAscend 0 seen.clusters) }
    ensures low { IfOk result (λ seen. EndBelow g.now.dblocks seen.clusters) }
    ensures root { IfOk result (λ seen. IsTrue (has_root_cluster (volume_of g.now) seen.clusters)) }
    ensures cause { HasGroupsCause (D.faults disk.old) (D.faults disk.new) result }
    ensures disk { OnlyReads D.size D.holds D.write_faults D.writes D.tells_stops D.moment D.may_leave D.left_since disk.old disk.new }
    ensures reads { D.reads disk.new + steps.old ≤ D.reads disk.old + steps.new }
{
    let all_heads = match read_all_heads(alloc, g, disk, steps) {
        Ok(heads) => heads,
        Err(fault) => return Err(fault),
    };
    let mut forests = match read_forests(rt, alloc, g, disk, &all_heads, workers, gate, steps) {
        Ok(forests) => forests,
        Err(fault) => return Err(fault),
    };
    let mut all = no_groups(alloc);
    for ag in 0..g.agcount {
        let heads = &all_heads[ag as usize];
        let trees = forests.next(heads);
        all = match add_group(alloc, g, disk, ag, heads, trees, all, looks, steps) {
            Ok(grown) => grown,
            Err(fault) => return Err(fault),
        };
    }
    Ok(all)
}

/// No group.
fn no_groups(alloc: Global) -> Groups
    ensures groups { result.groups ≡ Ok [] }
    ensures clusters { result.clusters ≡ [] }
    ensures trees { result.trees ≡ [] }
{
    Groups {
        groups: Ok(Records::from_vec(Vec::new(alloc))),
        clusters: Records::from_vec(Vec::new(alloc)),
        trees: Records::from_vec(Vec::new(alloc)),
    }
}

/// Looks through a group whose headers and trees these are, and adds it to those in front of it.
fn add_group<D: Disk, L: Ledger>(
    alloc: Global,
    g: &Geometry,
    disk: &mut D,
    ag: u32,
    heads: &Heads,
    trees: Trees,
    all: Groups,
    looks: bool,
    steps: &mut Steps<L>,
) -> Result<Groups, GroupsFault>
    requires group { ag < g.now.agcount }
    requires inside { g.now.dblocks ≤ D.size disk.old }
    requires parts { ForSome (D.holds disk.old) (λ image. ArePartsRead (volume_of g.now) image ag heads.now trees) }
    ensures groups { IfOk result (λ new. ForSome (D.holds disk.old) (λ image. new.groups ≡ then_read all.groups (group_read (volume_of g.now) image ag))) }
    ensures clusters { IfOk result (λ new. ForSome (D.holds disk.old) (λ image.
        (looks ≡ false → hold_no_object (volume_of g.now) image new.clusters ≡ true) → new.clusters ≡ all.clusters ++ candidates_in (volume_of g.now) image ag)) }
    ensures trees { IfOk result (λ new. ForSome (D.holds disk.old) (λ image. lists_of new.trees ≡ lists_of all.trees ++ reserved_in (volume_of g.now) image ag ∷ [])) }
    ensures placed { IfOk result (λ new. WithPlaced (volume_of g.now) ag (group_length (volume_of g.now) ag / 4) all.clusters new.clusters) }
    ensures cause { HasGroupsCause (D.faults disk.old) (D.faults disk.new) result }
    ensures disk { OnlyReads D.size D.holds D.write_faults D.writes D.tells_stops D.moment D.may_leave D.left_since disk.old disk.new }
    ensures reads { D.reads disk.new + steps.old ≤ D.reads disk.old + steps.new }
{
    let seen = match see_group(alloc, g, disk, ag, heads, trees, looks, steps) {
        Ok(seen) => seen,
        Err(fault) => return Err(fault),
    };
    match with_seen(all, seen) {
        Ok(grown) => Ok(grown),
        Err(NoMemory) => Err(GroupsFault::NoMemory),
    }
}

/// Groups with one more behind them.
fn with_seen(all: Groups, seen: GroupSeen) -> Result<Groups, NoMemory>
    ensures groups { IfOk result (λ new. new.groups ≡ then_read all.groups seen.record) }
    ensures clusters { IfOk result (λ new. new.clusters ≡ all.clusters ++ seen.clusters.items) }
    ensures trees { IfOk result (λ new. lists_of new.trees ≡ lists_of all.trees ++ seen.reserved.items ∷ []) }
{
    let GroupSeen {
        record,
        clusters,
        reserved,
    } = seen;
    Ok(Groups {
        groups: with_group(all.groups, record)?,
        clusters: with_clusters(all.clusters, &clusters)?,
        trees: with_reserved(all.trees, reserved)?,
    })
}

/// Clusters with more behind them.
fn with_clusters(
    clusters: Records<ClusterRec>,
    more: &Vec<ClusterRec>,
) -> Result<Records<ClusterRec>, NoMemory>
    ensures { IfOk result (λ all. all ≡ clusters ++ more.now.items) }
{
    let mut all = clusters.into_vec();
    all.extend_from_slice(more.as_slice())?;
    Ok(Records::from_vec(all))
}

/// What is known of the blocks of groups, with the reserved blocks of one more.
fn with_reserved(
    trees: Records<GroupTrees>,
    reserved: Vec<u64>,
) -> Result<Records<GroupTrees>, NoMemory>
    ensures { IfOk result (λ all. lists_of all ≡ lists_of trees ++ reserved.items ∷ []) }
{
    let mut all = trees.into_vec();
    all.push(GroupTrees {
        reserved: Blocks::from_vec(reserved),
    })?;
    Ok(Records::from_vec(all))
}

/// The groups with one more, or the first part that does not read.
fn with_group(
    groups: Result<Records<GroupRec>, Finding>,
    group: Result<GroupRec, Finding>,
) -> Result<Result<Records<GroupRec>, Finding>, NoMemory>
    ensures { IfOk result (λ all. all ≡ then_read groups group) }
{
    let groups = match groups {
        Ok(groups) => groups,
        Err(finding) => return Ok(Err(finding)),
    };
    let group = match group {
        Ok(group) => group,
        Err(finding) => return Ok(Err(finding)),
    };
    let mut all = groups.into_vec();
    all.push(group)?;
    Ok(Ok(Records::from_vec(all)))
}
