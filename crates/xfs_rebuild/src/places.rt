//! The blocks whose old bytes are at hand: the first of each group, and of the kept clusters those of which some slot is to change.

ghost use Rattle.std.specs.Prelude.{◌≡◌, ◌++◌, ◌+◌, ◌<◌, ◌≤◌, [], ◌∷◌, filter, map, IfOk, OnOk};
ghost use Rattle.std.specs.List.{All, range_with_len};
ghost use Rattle.std.specs.List.Sorted.{IsNonDecreasingBy};
ghost use Rattle.xfs_geom.specs.Volumes.{volume_of};
ghost use Rattle.xfs_image.specs.Slots.{cluster_blocks};
ghost use Rattle.xfs_render.specs.declared.wanted_slots.SlotWanted.{SlotWanted};
ghost use Rattle.xfs_rebuild.specs.Places.{first_of_group, has_wanted, is_slot_wanted, old_places, wanted_blocks};

use std::alloc::Global;
use xfs_disk::NoMemory;
use xfs_geom::Geometry;
use xfs_render::{SlotWanted, find_slot};

/// The blocks of a cluster, and the slots of a block.
const CLUSTER_BLOCKS: u64 = 4;

const SLOTS: u8 = 8;

/// Their numbers. A block of a kept cluster of which nothing is wanted stays as it is: it is neither read nor written.
#[tactic(auto, unfolding(crate::specs::Places::old_places))]
pub(crate) fn old_places(
    alloc: Global,
    g: &Geometry,
    clusters: &[u64],
    slots: &[SlotWanted],
) -> Result<Vec<u64>, NoMemory>
    requires lie { All (λ cluster. cluster + 4 ≤ g.now.dblocks) clusters.now }
    requires order { IsNonDecreasingBy (λ (w : SlotWanted). w.ino) slots.now }
    ensures places { IfOk result (λ places. places.items ≡ old_places (volume_of g.now) clusters.now slots.now) }
    ensures inside { IfOk result (λ places. All (λ place. place < g.now.dblocks) places.items) }
{
    let mut places = Vec::new(alloc);
    push_heads(g, &mut places)?;
    push_clusters(g, clusters, slots, &mut places)?;
    Ok(places)
}

/// Adds the first block of each group.
fn push_heads(g: &Geometry, places: &mut Vec<u64>) -> Result<(), NoMemory>
    requires low { All (λ place. place < g.now.dblocks) places.old.items }
    ensures more { OnOk result (places.new.items ≡ places.old.items ++ map (first_of_group (volume_of g.now)) (range_with_len 0 g.now.agcount)) }
    ensures low { OnOk result (All (λ place. place < g.now.dblocks) places.new.items) }
{
    for ag in 0..g.agcount {
        push(g.start_of_group(ag), g.dblocks, places)?;
    }
    Ok(())
}

/// Adds the blocks of clusters of which something is wanted.
fn push_clusters(
    g: &Geometry,
    clusters: &[u64],
    slots: &[SlotWanted],
    places: &mut Vec<u64>,
) -> Result<(), NoMemory>
    requires lie { All (λ cluster. cluster + 4 ≤ g.now.dblocks) clusters.now }
    requires order { IsNonDecreasingBy (λ (w : SlotWanted). w.ino) slots.now }
    requires low { All (λ place. place < g.now.dblocks) places.old.items }
    ensures more { OnOk result (places.new.items ≡ places.old.items ++ wanted_blocks (volume_of g.now) clusters.now slots.now) }
    ensures low { OnOk result (All (λ place. place < g.now.dblocks) places.new.items) }
{
    for cluster in clusters {
        push_cluster(g, *cluster, slots, places)?;
    }
    Ok(())
}

/// Adds those of the four blocks of a cluster.
fn push_cluster(
    g: &Geometry,
    cluster: u64,
    slots: &[SlotWanted],
    places: &mut Vec<u64>,
) -> Result<(), NoMemory>
    requires cluster { cluster + 4 ≤ g.now.dblocks }
    requires order { IsNonDecreasingBy (λ (w : SlotWanted). w.ino) slots.now }
    requires low { All (λ place. place < g.now.dblocks) places.old.items }
    ensures more { OnOk result (places.new.items ≡ places.old.items ++ filter (has_wanted (volume_of g.now) slots.now) (cluster_blocks cluster)) }
    ensures low { OnOk result (All (λ place. place < g.now.dblocks) places.new.items) }
{
    for i in 0..CLUSTER_BLOCKS {
        push_wanted(g, cluster + i, slots, places)?;
    }
    Ok(())
}

/// Adds a block where something is wanted of it.
fn push_wanted(
    g: &Geometry,
    block: u64,
    slots: &[SlotWanted],
    places: &mut Vec<u64>,
) -> Result<(), NoMemory>
    requires block { block < g.now.dblocks }
    requires order { IsNonDecreasingBy (λ (w : SlotWanted). w.ino) slots.now }
    requires low { All (λ place. place < g.now.dblocks) places.old.items }
    ensures more { OnOk result (places.new.items ≡ places.old.items ++ filter (has_wanted (volume_of g.now) slots.now) (block ∷ [])) }
    ensures low { OnOk result (All (λ place. place < g.now.dblocks) places.new.items) }
{
    if has_wanted(g, block, slots) {
        push(block, g.dblocks, places)?;
    }
    Ok(())
}

/// Whether something is wanted of a slot of a block.
#[tactic(auto, unfolding(crate::specs::Places::has_wanted))]
fn has_wanted(g: &Geometry, block: u64, slots: &[SlotWanted]) -> bool
    requires block { block < g.now.dblocks }
    requires order { IsNonDecreasingBy (λ (w : SlotWanted). w.ino) slots.now }
    ensures { result ≡ has_wanted (volume_of g.now) slots.now block }
{
    for k in 0..SLOTS {
        if is_slot_wanted(g, block, k, slots) {
            return true;
        }
    }
    false
}

/// Whether something is wanted of one slot of it.
fn is_slot_wanted(g: &Geometry, block: u64, k: u8, slots: &[SlotWanted]) -> bool
    requires block { block < g.now.dblocks }
    requires slot { k < 8 }
    requires order { IsNonDecreasingBy (λ (w : SlotWanted). w.ino) slots.now }
    ensures { result ≡ is_slot_wanted (volume_of g.now) slots.now block k }
{
    find_slot(slots, g.inode_of_slot(block, k)).is_some()
}

/// Adds a block before an end.
fn push(place: u64, end: u64, places: &mut Vec<u64>) -> Result<(), NoMemory>
    requires place { place < end }
    requires low { All (λ place. place < end) places.old.items }
    ensures more { OnOk result (places.new.items ≡ places.old.items ++ place ∷ []) }
    ensures low { OnOk result (All (λ place. place < end) places.new.items) }
{
    places.push(place)?;
    Ok(())
}
