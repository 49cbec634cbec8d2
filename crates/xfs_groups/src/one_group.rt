//! One group of a volume.

ghost use Rattle.std.specs.Prelude.{◌≡◌, ◌^◌, ◌/◌, ◌<◌, ◌≤◌, ◌||◌, ℕ, ◌+◌, true, false, IfOk, IfSome};
ghost use Rattle.std.specs.List.{All};
ghost use Rattle.std.specs.Option.{ForSome};
ghost use Rattle.xfs_disk.specs.Lists.{is_among};
ghost use Rattle.xfs_disk.specs.Blocks.{Image};
ghost use Rattle.xfs_geom.specs.Conversions.{group_length};
ghost use Rattle.xfs_geom.specs.Volumes.{volume_of};
ghost use Rattle.xfs_image.specs.Clusters.{both_name};
ghost use Rattle.xfs_image.specs.Groups.{group_read, head_block};
ghost use Rattle.xfs_image.specs.Reserved.{is_of_named, is_of_tree, reserved_in};
ghost use Rattle.xfs_disk.specs.Reads.{OnlyReads};
ghost use Rattle.xfs_groups.specs.Answers.{HasGroupsCause, hold_no_object};
ghost use Rattle.xfs_groups.specs.Private.Chosen.{ClustersPlaced, IsToldOfGroup, candidates_in, chosen, withheld};
ghost use Rattle.xfs_groups.specs.Named.{AreOwnersApart, is_named};
ghost use Rattle.xfs_groups.specs.Private.ReadGroups.{ArePartsRead, IsGroupTold};

use crate::faults::GroupsFault;
use crate::heads::Heads;
use crate::named::{Named, held_by_trees, named_by};
use crate::parts::group_with;
use crate::recorded::recorded_clusters;
use crate::scanned::{ScannedGroup, scan_group};
use crate::sets::BlockSet;
use crate::trees::Trees;
use std::alloc::Global;
use std::sync::ledger::Ledger;
use xfs_collections::Steps;
use xfs_disk::{Disk, NoMemory};
use xfs_geom::Geometry;
use xfs_image::Finding;
use xfs_volume::{ClusterRec, GroupRec};

/// A group, its clusters whose slots are read, and its reserved blocks.
#[derive(Drop)]
pub(crate) struct GroupSeen {
    /// The group, or the first part of it that does not read.
    pub record: Result<GroupRec, Finding>,
    pub clusters: Vec<ClusterRec>,
    pub reserved: Vec<u64>,
}

/// What the trees of a group say of its blocks.
#[derive(Drop)]
struct Told {
    trusted: bool,
    named: BlockSet,
    held: BlockSet,
}

/// A group, and what its trees say of its blocks.
#[derive(Drop)]
struct GroupTold {
    record: Result<GroupRec, Finding>,
    told: Told,
}

impl GroupTold {
    /// What its trees say.
    fn told(&self) -> &Told
        ensures { result.now ≡ self.now.told }
    {
        &self.told
    }
}

/// Looks through a group whose headers and trees these are.
pub(crate) fn see_group<D: Disk, L: Ledger>(
    alloc: Global,
    g: &Geometry,
    disk: &mut D,
    ag: u32,
    heads: &Heads,
    trees: Trees,
    looks: bool,
    steps: &mut Steps<L>,
) -> Result<GroupSeen, GroupsFault>
    requires group { ag < g.now.agcount }
    requires inside { g.now.dblocks ≤ D.size disk.old }
    requires parts { ForSome (D.holds disk.old) (λ image. ArePartsRead (volume_of g.now) image ag heads.now trees) }
    ensures record { IfOk result (λ seen. ForSome (D.holds disk.old) (λ image. seen.record ≡ group_read (volume_of g.now) image ag)) }
    ensures clusters { IfOk result (λ seen. ForSome (D.holds disk.old) (λ image.
        (looks ≡ false → hold_no_object (volume_of g.now) image seen.clusters.items ≡ true) → seen.clusters.items ≡ candidates_in (volume_of g.now) image ag)) }
    ensures reserved { IfOk result (λ seen. ForSome (D.holds disk.old) (λ image. seen.reserved.items ≡ reserved_in (volume_of g.now) image ag)) }
    ensures placed { IfOk result (λ seen. ClustersPlaced (volume_of g.now) ag (group_length (volume_of g.now) ag / 4) seen.clusters.items) }
    ensures cause { HasGroupsCause (D.faults disk.old) (D.faults disk.new) result }
    ensures disk { OnlyReads D.size D.holds D.write_faults D.writes D.tells_stops D.moment D.may_leave D.left_since disk.old disk.new }
    ensures reads { D.reads disk.new + steps.old ≤ D.reads disk.old + steps.new }
{
    let group = match group_told(alloc, g, ag, heads, trees) {
        Ok(group) => group,
        Err(NoMemory) => return Err(GroupsFault::NoMemory),
    };
    match look_through(alloc, g, disk, ag, group.told(), looks, steps) {
        Ok(found) => Ok(seen(group, found)),
        Err(fault) => Err(fault),
    }
}

/// A group with what is found in its blocks.
fn seen(group: GroupTold, found: ScannedGroup) -> GroupSeen
    ensures record { result.record ≡ group.record }
    ensures clusters { result.clusters.items ≡ found.clusters.items }
    ensures reserved { result.reserved.items ≡ found.reserved.items }
{
    let GroupTold { record, .. } = group;
    let ScannedGroup { clusters, reserved } = found;
    GroupSeen {
        record,
        clusters,
        reserved,
    }
}

/// The group that headers and trees make up, and what its trees say.
fn group_told(
    alloc: Global,
    g: &Geometry,
    ag: u32,
    heads: &Heads,
    trees: Trees,
) -> Result<GroupTold, NoMemory>
    requires { ag < g.now.agcount }
    ensures { IfOk result (λ group. (image : Image) → ArePartsRead (volume_of g.now) image ag heads.now trees → IsGroupTold (volume_of g.now) image ag group) }
{
    let told = told_by(alloc, g, ag, &trees)?;
    let record = group_with(alloc, ag, heads, trees)?;
    Ok(GroupTold { record, told })
}

/// What the trees of a group say.
fn told_by(alloc: Global, g: &Geometry, ag: u32, trees: &Trees) -> Result<Told, NoMemory>
    requires { ag < g.now.agcount }
    ensures { AreOwnersApart trees.now.rmap → IfOk result (λ told. IsToldOfGroup (volume_of g.now) ag trees.now told) }
{
    let named = named_by(alloc, g, ag, &trees.ino, &trees.rmap)?;
    let told = told_as(alloc, trees, &named)?;
    Ok(told)
}

/// What the trees of a group say that name these clusters.
fn told_as(alloc: Global, trees: &Trees, named: &Named) -> Result<Told, NoMemory>
    requires low_chunks { IfSome named.now.chunks (λ clusters. All (λ cluster. cluster < 2 ^ 32) clusters) }
    requires low_owners { IfSome named.now.owners (λ clusters. All (λ cluster. cluster < 2 ^ 32) clusters) }
    ensures trusted_is { IfOk result (λ told. told.trusted ≡ both_name named.now.chunks named.now.owners) }
    ensures named_is { IfOk result (λ told. (q : ℕ) → is_among told.named q ≡ is_named named.now.chunks named.now.owners q) }
    ensures held_is { IfOk result (λ told. (q : ℕ) → is_among told.held q
        ≡ (is_of_tree trees.now.ino q || is_of_tree trees.now.rmap q || is_of_named named.now.chunks q || is_of_named named.now.owners q)) }
{
    Ok(Told {
        trusted: named.is_trusted(alloc)?,
        named: named.clusters(alloc)?,
        held: held_by_trees(alloc, &trees.ino, &trees.rmap, named)?,
    })
}

/// The clusters of a group whose slots are read, and its reserved blocks, by what its trees say. Bytes alone count in a group
/// that is not trusted.
fn look_through<D: Disk, L: Ledger>(
    alloc: Global,
    g: &Geometry,
    disk: &mut D,
    ag: u32,
    told: &Told,
    looks: bool,
    steps: &mut Steps<L>,
) -> Result<ScannedGroup, GroupsFault>
    requires group { ag < g.now.agcount }
    requires inside { g.now.dblocks ≤ D.size disk.old }
    ensures chosen { IfOk result (λ found. ForSome (D.holds disk.old) (λ image.
        (looks ≡ false → hold_no_object (volume_of g.now) image found.clusters.items ≡ true)
        → found.clusters.items ≡ chosen (volume_of g.now) image told.now.trusted told.now.named ag (group_length (volume_of g.now) ag / 4))) }
    ensures withheld { IfOk result (λ found. ForSome (D.holds disk.old) (λ image.
        found.reserved.items ≡ withheld (volume_of g.now) image told.now.trusted told.now.held (head_block (volume_of g.now) ag) (group_length (volume_of g.now) ag))) }
    ensures placed { IfOk result (λ found. ClustersPlaced (volume_of g.now) ag (group_length (volume_of g.now) ag / 4) found.clusters.items) }
    ensures cause { HasGroupsCause (D.faults disk.old) (D.faults disk.new) result }
    ensures disk { OnlyReads D.size D.holds D.write_faults D.writes D.tells_stops D.moment D.may_leave D.left_since disk.old disk.new }
    ensures reads { D.reads disk.new + steps.old ≤ D.reads disk.old + steps.new }
{
    if !told.trusted {
        return scan_group(alloc, g, disk, ag, &told.named, &told.held, steps);
    }
    let reserved = match told
        .held
        .within(alloc, g.start_of_group(ag), g.group_length(ag))
    {
        Ok(reserved) => reserved,
        Err(NoMemory) => return Err(GroupsFault::NoMemory),
    };
    match recorded_clusters(alloc, g, disk, ag, &told.named, looks, steps) {
        Ok(clusters) => Ok(ScannedGroup { clusters, reserved }),
        Err(fault) => Err(fault),
    }
}
