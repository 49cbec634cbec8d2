//! What is known of the slots of the candidate clusters.

ghost use Rattle.std.specs.Prelude.{◌≡◌, ◌++◌, ◌+◌, ◌<◌, ◌≤◌, ◌↔◌, IfOk, IsTrue, OnOk, length};
ghost use Rattle.xfs_geom.specs.Volumes.{volume_of};
ghost use Rattle.xfs_image.specs.Slots.{cluster_inodes, inodes_of_block};
ghost use Rattle.xfs_naming.specs.Naming.{NumbersAscend};
ghost use Rattle.xfs_rebuild.specs.Seen.{all_seen, inodes_of_clusters, seen_of_fact, slots_seen, state_of_reading};

use std::alloc::Global;
use xfs_disk::NoMemory;
use xfs_geom::Geometry;
use xfs_request::{SlotSeen, SlotState};
use xfs_rounds::{SlotFact, SlotReading};
use xfs_salvage::is_among;
use xfs_scan::Evidence;
use xfs_volume::{ClusterRec, Records};

/// The slots of a block, and the blocks of a cluster.
const SLOTS: u8 = 8;

const CLUSTER_BLOCKS: u64 = 4;

/// What is known of the slots of an evidence's clusters.
pub(crate) fn slots_found(
    alloc: Global,
    g: &Geometry,
    evidence: &Evidence,
) -> Result<Records<SlotSeen>, NoMemory>
    ensures { IfOk result (λ slots. slots ≡ slots_seen (volume_of g.now) evidence.now.clusters evidence.now.slots evidence.now.bare) }
{
    let slots = slots_seen(
        alloc,
        g,
        evidence.clusters.as_slice(),
        evidence.slots.as_slice(),
        evidence.bare.as_slice(),
    )?;
    Ok(Records::from_vec(slots))
}

/// What is known of the slots of some clusters, from what was kept of each: 32 facts a cluster. `bare` are the inodes of the
/// files whose attributes do not read.
///
/// `NoMemory` where memory is wanting, or where these are not what is gathered of any image: where a cluster ends past the
/// volume, the facts are not as many as the slots, or the inodes of `bare` do not ascend.
#[tactic(auto, unfolding(crate::specs::Seen::slots_seen))]
fn slots_seen(
    alloc: Global,
    g: &Geometry,
    clusters: &[ClusterRec],
    facts: &[SlotFact],
    bare: &[u64],
) -> Result<Vec<SlotSeen>, NoMemory>
    ensures { IfOk result (λ slots. slots.items ≡ slots_seen (volume_of g.now) clusters.now facts.now bare.now) }
{
    if !ascend(bare) {
        return Err(NoMemory);
    }
    let inodes = inodes_of_clusters(alloc, g, clusters)?;
    if facts.len() != inodes.len() {
        return Err(NoMemory);
    }
    all_seen(alloc, bare, inodes.as_slice(), facts)
}

/// Whether numbers ascend.
fn ascend(numbers: &[u64]) -> bool
    ensures { IsTrue result ↔ NumbersAscend 0 numbers.now }
{
    // Behind the last of all numbers none can come, so what may come next has more bits.
    let mut least = 0;
    for number in numbers {
        if (*number as u128) < least {
            return false;
        }
        least = *number as u128 + 1;
    }
    true
}

/// The inodes of clusters.
#[tactic(auto, unfolding(crate::specs::Seen::inodes_of_clusters))]
fn inodes_of_clusters(
    alloc: Global,
    g: &Geometry,
    clusters: &[ClusterRec],
) -> Result<Vec<u64>, NoMemory>
    ensures { IfOk result (λ inodes. inodes.items ≡ inodes_of_clusters (volume_of g.now) clusters.now) }
{
    let mut inodes = Vec::new(alloc);
    for cluster in clusters {
        push_cluster(g, cluster.block, &mut inodes)?;
    }
    Ok(inodes)
}

/// Adds those of a cluster.
#[tactic(auto, unfolding(xfs_image::specs::Slots::cluster_inodes))]
fn push_cluster(g: &Geometry, cluster: u64, inodes: &mut Vec<u64>) -> Result<(), NoMemory>
    ensures { OnOk result (inodes.new.items ≡ inodes.old.items ++ cluster_inodes (volume_of g.now) cluster) }
{
    if g.dblocks <= cluster || g.dblocks - cluster < CLUSTER_BLOCKS {
        return Err(NoMemory);
    }
    for block in cluster..cluster + CLUSTER_BLOCKS {
        push_block(g, block, inodes)?;
    }
    Ok(())
}

/// Adds those of a block.
fn push_block(g: &Geometry, block: u64, inodes: &mut Vec<u64>) -> Result<(), NoMemory>
    requires inside { block < g.now.dblocks }
    ensures { OnOk result (inodes.new.items ≡ inodes.old.items ++ inodes_of_block (volume_of g.now) block) }
{
    for slot in 0..SLOTS {
        inodes.push(g.inode_of_slot(block, slot))?;
    }
    Ok(())
}

/// What is known of the slots of inodes, each with what was kept of it.
fn all_seen(
    alloc: Global,
    bare: &[u64],
    inodes: &[u64],
    facts: &[SlotFact],
) -> Result<Vec<SlotSeen>, NoMemory>
    requires bare { NumbersAscend 0 bare.now }
    requires many { length facts.now ≡ length inodes.now }
    ensures { IfOk result (λ slots. slots.items ≡ all_seen bare.now inodes.now facts.now) }
{
    let mut slots = Vec::new(alloc);
    for i in 0..inodes.len() {
        slots.push(seen_of_fact(bare, inodes[i], &facts[i]))?;
    }
    Ok(slots)
}

/// What is known of the slot of an inode.
fn seen_of_fact(bare: &[u64], ino: u64, fact: &SlotFact) -> SlotSeen
    requires bare { NumbersAscend 0 bare.now }
    ensures { result ≡ seen_of_fact bare.now ino fact.now }
{
    SlotSeen {
        ino,
        state: state_of_reading(bare, ino, fact.reading),
        lsn: fact.lsn,
    }
}

/// What a slot of an inode reads as, with the blocks that it names.
fn state_of_reading(bare: &[u64], ino: u64, reading: SlotReading) -> SlotState
    requires bare { NumbersAscend 0 bare.now }
    ensures { result ≡ state_of_reading bare.now ino reading }
{
    match reading {
        SlotReading::Free => SlotState::Free,
        SlotReading::InUse => used_state(bare, ino),
        SlotReading::Unsound => SlotState::Other,
    }
}

/// The same of a slot in use.
fn used_state(bare: &[u64], ino: u64) -> SlotState
    requires bare { NumbersAscend 0 bare.now }
    ensures { result ≡ state_of_reading bare.now ino SlotReading.InUse }
{
    if is_among(bare, ino) {
        SlotState::Bare
    } else {
        SlotState::Other
    }
}
