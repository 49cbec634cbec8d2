//! The clusters of a group that does not say in full where its clusters are: each place is looked at.

ghost use Rattle.std.specs.Prelude.{◌≡◌, ◌+◌, ◌/◌, ◌<◌, ◌≤◌, ◌++◌, ◌∷◌, [], ◌&&◌, ◌||◌, if◌then◌else◌, not, false, IfOk, OnOk};
ghost use Rattle.std.specs.Option.{ForSome};
ghost use Rattle.xfs_disk.specs.Lists.{is_among};
ghost use Rattle.xfs_geom.specs.Conversions.{group_length, is_fixed};
ghost use Rattle.xfs_geom.specs.Volumes.{volume_of};
ghost use Rattle.xfs_image.specs.Groups.{head_block};
ghost use Rattle.xfs_disk.specs.Reads.{OnlyReads};
ghost use Rattle.xfs_groups.specs.Answers.{HasGroupsCause};
ghost use Rattle.xfs_groups.specs.Private.Chosen.{ClustersPlaced, WithCluster, are_clear, are_used, chosen, chosen_rec, is_chosen, is_chosen_as, withheld};

use crate::faults::GroupsFault;
use crate::looking::{BlockSeen, look};
use crate::recorded::{lies_in_chunk, push_chosen, root_cluster};
use crate::sets::{BlockSet, push_if};
use std::alloc::Global;
use std::sync::ledger::Ledger;
use xfs_collections::Steps;
use xfs_disk::{Disk, Failed, NoMemory};
use xfs_geom::Geometry;
use xfs_volume::ClusterRec;

/// The clusters of a group whose slots are read, and the blocks of it on which nothing new is placed.
#[derive(Drop)]
pub(crate) struct ScannedGroup {
    pub clusters: Vec<ClusterRec>,
    pub reserved: Vec<u64>,
}

/// What the blocks of a cluster are.
#[derive(Clone, Copy)]
struct ClusterSeen {
    /// A slot is sealed and holds a file.
    used: bool,
    /// No block has a fixed use or is sealed as one object.
    clear: bool,
}

/// Looks at each place of a group whose trees name these clusters, and hold these blocks.
pub(crate) fn scan_group<D: Disk, L: Ledger>(
    alloc: Global,
    g: &Geometry,
    disk: &mut D,
    ag: u32,
    named: &BlockSet,
    held: &BlockSet,
    steps: &mut Steps<L>,
) -> Result<ScannedGroup, GroupsFault>
    requires group { ag < g.now.agcount }
    requires inside { g.now.dblocks ≤ D.size disk.old }
    ensures chosen { IfOk result (λ found. ForSome (D.holds disk.old) (λ image.
        found.clusters.items ≡ chosen (volume_of g.now) image false named.now ag (group_length (volume_of g.now) ag / 4))) }
    ensures withheld { IfOk result (λ found. ForSome (D.holds disk.old) (λ image.
        found.reserved.items ≡ withheld (volume_of g.now) image false held.now (head_block (volume_of g.now) ag) (group_length (volume_of g.now) ag))) }
    ensures placed { IfOk result (λ found. ClustersPlaced (volume_of g.now) ag (group_length (volume_of g.now) ag / 4) found.clusters.items) }
    ensures cause { HasGroupsCause (D.faults disk.old) (D.faults disk.new) result }
    ensures disk { OnlyReads D.size D.holds D.write_faults D.writes D.tells_stops D.moment D.may_leave D.left_since disk.old disk.new }
    ensures reads { D.reads disk.new + steps.old ≤ D.reads disk.old + steps.new }
{
    let start = g.start_of_group(ag);
    let blocks = g.group_length(ag);
    let mut all = nothing_scanned(alloc);
    for i in 0..blocks / 4 {
        let cluster = start + 4 * i as u64;
        match scan_cluster(g, disk, named, held, cluster, &mut all, steps) {
            Ok(()) => {}
            Err(fault) => return Err(fault),
        }
    }
    let rest = start + (blocks / 4 * 4) as u64;
    match look_at(g, disk, held, rest, blocks % 4, &mut all.reserved, steps) {
        Ok(_) => Ok(all),
        Err(fault) => Err(fault),
    }
}

/// No cluster, and no block.
fn nothing_scanned(alloc: Global) -> ScannedGroup
    ensures clusters { result.clusters.items ≡ [] }
    ensures reserved { result.reserved.items ≡ [] }
{
    ScannedGroup {
        clusters: Vec::new(alloc),
        reserved: Vec::new(alloc),
    }
}

/// Looks at the place of a cluster, and adds it and its blocks to what is found in front of it.
fn scan_cluster<D: Disk, L: Ledger>(
    g: &Geometry,
    disk: &mut D,
    named: &BlockSet,
    held: &BlockSet,
    cluster: u64,
    all: &mut ScannedGroup,
    steps: &mut Steps<L>,
) -> Result<(), GroupsFault>
    requires cluster { cluster + 4 ≤ g.now.dblocks }
    requires inside { g.now.dblocks ≤ D.size disk.old }
    ensures chosen { OnOk result (ForSome (D.holds disk.old) (λ image. all.new.clusters.items
        ≡ all.old.clusters.items ++ (if is_chosen (volume_of g.now) image false named.now cluster then (chosen_rec (volume_of g.now) named.now cluster ∷ []) else []))) }
    ensures withheld { OnOk result (ForSome (D.holds disk.old) (λ image.
        all.new.reserved.items ≡ all.old.reserved.items ++ withheld (volume_of g.now) image false held.now cluster 4)) }
    ensures root { OnOk result (WithCluster (volume_of g.now) named.now cluster all.old.clusters.items all.new.clusters.items) }
    ensures cause { HasGroupsCause (D.faults disk.old) (D.faults disk.new) result }
    ensures disk { OnlyReads D.size D.holds D.write_faults D.writes D.tells_stops D.moment D.may_leave D.left_since disk.old disk.new }
    ensures reads { D.reads disk.new + steps.old ≤ D.reads disk.old + steps.new }
{
    let seen = match look_at(g, disk, held, cluster, 4, &mut all.reserved, steps) {
        Ok(seen) => seen,
        Err(fault) => return Err(fault),
    };
    let is_chosen = is_chosen(g, named, cluster, &seen);
    match push_chosen(&mut all.clusters, g, named, cluster, is_chosen) {
        Ok(()) => Ok(()),
        Err(NoMemory) => Err(GroupsFault::NoMemory),
    }
}

/// Whether the slots of a cluster are read: it is the root's, or it is named or has a slot in use, lies in a chunk and is clear.
fn is_chosen(g: &Geometry, named: &BlockSet, cluster: u64, seen: &ClusterSeen) -> bool
    requires { cluster < g.now.dblocks }
    ensures { result ≡ is_chosen_as (volume_of g.now) named.now cluster seen.now.used seen.now.clear }
{
    cluster == root_cluster(g)
        || (named.has(cluster) || seen.used) && lies_in_chunk(g, cluster) && seen.clear
}

/// Looks at some blocks, and adds those of them on which nothing new is placed.
fn look_at<D: Disk, L: Ledger>(
    g: &Geometry,
    disk: &mut D,
    held: &BlockSet,
    first: u64,
    count: u32,
    reserved: &mut Vec<u64>,
    steps: &mut Steps<L>,
) -> Result<ClusterSeen, GroupsFault>
    requires blocks { first + count ≤ g.now.dblocks }
    requires inside { g.now.dblocks ≤ D.size disk.old }
    ensures used { IfOk result (λ seen. ForSome (D.holds disk.old) (λ image. seen.used ≡ are_used (volume_of g.now) image first count)) }
    ensures clear { IfOk result (λ seen. ForSome (D.holds disk.old) (λ image. seen.clear ≡ are_clear (volume_of g.now) image first count)) }
    ensures withheld { IfOk result (λ seen. ForSome (D.holds disk.old) (λ image.
        reserved.new.items ≡ reserved.old.items ++ withheld (volume_of g.now) image false held.now first count)) }
    ensures cause { HasGroupsCause (D.faults disk.old) (D.faults disk.new) result }
    ensures disk { OnlyReads D.size D.holds D.write_faults D.writes D.tells_stops D.moment D.may_leave D.left_since disk.old disk.new }
    ensures reads { D.reads disk.new + steps.old ≤ D.reads disk.old + steps.new }
{
    let mut all = ClusterSeen {
        used: false,
        clear: true,
    };
    for k in 0..count {
        let block = first + k as u64;
        let seen = match look(g, disk, block, steps) {
            Ok(seen) => seen,
            Err(Failed) => return Err(GroupsFault::ReadFault),
        };
        let is_withheld = is_withheld(held, block, &seen);
        match push_if(reserved, is_withheld, block) {
            Ok(()) => {}
            Err(NoMemory) => return Err(GroupsFault::NoMemory),
        }
        all = with_block(g, &all, block, &seen);
    }
    Ok(all)
}

/// Whether nothing new is placed on a block, since trees hold it, or its bytes do.
fn is_withheld(held: &BlockSet, block: u64, seen: &BlockSeen) -> bool
    ensures { result ≡ (is_among held.now block || (seen.now.naming || seen.now.used)) }
{
    held.has(block) || seen.naming || seen.used
}

/// What some blocks are, with one more.
fn with_block(g: &Geometry, all: &ClusterSeen, block: u64, seen: &BlockSeen) -> ClusterSeen
    requires { block < g.now.dblocks }
    ensures used { result.used ≡ (all.now.used || seen.now.used) }
    ensures clear { result.clear ≡ (all.now.clear && not (is_fixed (volume_of g.now) block || seen.now.whole)) }
{
    ClusterSeen {
        used: all.used || seen.used,
        clear: all.clear && !(g.is_fixed(block) || seen.whole),
    }
}
