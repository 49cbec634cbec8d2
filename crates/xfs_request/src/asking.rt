//! What is asked of a volume, put together.

ghost use Rattle.std.specs.Prelude.{◌≡◌, ◌<◌, ◌^◌, [], false, IfOk};
ghost use Rattle.std.specs.List.{All};
ghost use Rattle.std.specs.List.Sorted.{IsNonDecreasingBy};
ghost use Rattle.xfs_geom.specs.Volumes.{volume_of};
ghost use Rattle.xfs_naming.specs.Naming.{NumbersAscend, numbers_of};
ghost use Rattle.xfs_volume.specs.declared.files.FileRec.{FileRec};
ghost use Rattle.xfs_space.specs.Parts.{HasLawfulForks};
ghost use Rattle.xfs_request.specs.Requests.{cleared_count, is_freed, kept_count, volume_wanted};
ghost use Rattle.xfs_request.specs.Slots.{wanted_slots};

use crate::chunks::inodes_wanted;
use crate::links::directories_of;
use crate::order::stand_by_number;
use crate::seen::SlotSeen;
use crate::slots::{Basis, wanted_slots};
use crate::taken::taken_runs;
use std::alloc::Global;
use xfs_disk::{NoMemory, Stamp};
use xfs_geom::{Geometry, Run};
use xfs_naming::links_of;
use xfs_place::{GroupInodes, Wanted};
use xfs_render::{SlotBase, SlotWanted};
use xfs_salvage::Salvaged;
use xfs_volume::{Blocks, Records};

/// What is asked of a volume that is rebuilt round what is kept of it.
#[derive(Drop)]
pub struct Request {
    /// What is to be placed, and what it holds already.
    pub wanted: Wanted,
    /// What is to be made of slots, by inode.
    pub slots: Records<SlotWanted>,
    /// How many inodes are then in use.
    pub kept: u64,
    /// How many slots are freed.
    pub cleared: u64,
}

/// What is asked of a volume of which some clusters and files are kept. `slots` is what is known of the slots of its clusters,
/// by inode; on the reserved blocks nothing new is placed.
///
/// `NoMemory` where memory is wanting, or where what was gathered cannot be that of any image.
pub fn ask(
    alloc: Global,
    g: &Geometry,
    kept: &Salvaged,
    slots: &[SlotSeen],
    reserved: Blocks,
    stamp: &Stamp,
) -> Result<Request, NoMemory>
    requires files { NumbersAscend 0 (numbers_of kept.now.files) }
    requires clusters { NumbersAscend 0 kept.now.clusters }
    requires forks { All (HasLawfulForks (volume_of g.now)) kept.now.files }
    ensures wanted { IfOk result (λ asked. asked.wanted ≡ volume_wanted g.now kept.now reserved) }
    ensures slots { IfOk result (λ asked. asked.slots ≡ wanted_slots (volume_of g.now) stamp.now kept.now slots.now) }
    ensures kept { IfOk result (λ asked. asked.kept ≡ kept_count kept.now) }
    ensures cleared { IfOk result (λ asked. asked.cleared ≡ cleared_count (wanted_slots (volume_of g.now) stamp.now kept.now slots.now)) }
{
    if !stand_by_number(slots) || !stand_by_number(kept.entries.as_slice()) {
        return Err(NoMemory);
    }
    let links = links_of(alloc, kept.entries.as_slice())?;
    let directories = directories_of(alloc, kept.files.as_slice())?;
    let basis = Basis {
        g,
        stamp,
        kept,
        directories: directories.as_slice(),
        slots,
        links: links.as_slice(),
    };
    let slots = wanted_slots(alloc, &basis)?;
    let cleared = cleared_count(slots.as_slice());
    Ok(Request {
        wanted: volume_wanted(alloc, g, kept, reserved)?,
        slots: Records::from_vec(slots),
        kept: kept.files.as_slice().len() as u64 + kept.fresh.as_slice().len() as u64,
        cleared,
    })
}

/// What is to be placed.
fn volume_wanted(
    alloc: Global,
    g: &Geometry,
    kept: &Salvaged,
    reserved: Blocks,
) -> Result<Wanted, NoMemory>
    requires files { IsNonDecreasingBy (λ (f : FileRec). f.ino) kept.now.files }
    requires clusters { NumbersAscend 0 kept.now.clusters }
    requires forks { All (HasLawfulForks (volume_of g.now)) kept.now.files }
    ensures { IfOk result (λ wanted. wanted ≡ volume_wanted g.now kept.now reserved) }
{
    let taken = taken_runs(alloc, g, kept)?;
    let inodes = inodes_wanted(alloc, g, kept)?;
    Ok(joined(alloc, g, taken, reserved, inodes))
}

/// The same from its parts: nothing that is new.
fn joined(
    alloc: Global,
    g: &Geometry,
    taken: Vec<Run>,
    reserved: Blocks,
    inodes: Vec<GroupInodes>,
) -> Wanted
    ensures { result ≡ record { geometry = g.now; taken = taken.items; new = []; reserved = reserved; from = 0; spared_from = []; takes_spared = false; objects = []; inodes = inodes.items } }
{
    Wanted {
        geometry: *g,
        taken: Records::from_vec(taken),
        new: Records::from_vec(Vec::new(alloc)),
        reserved,
        from: 0,
        spared_from: Records::from_vec(Vec::new(alloc)),
        takes_spared: false,
        objects: Records::from_vec(Vec::new(alloc)),
        inodes: Records::from_vec(inodes),
    }
}

/// How many slots are freed.
fn cleared_count(slots: &[SlotWanted]) -> u64
    ensures { result ≡ cleared_count slots.now }
{
    let mut count = 0;
    for slot in slots {
        if is_freed(slot) {
            count += 1;
        }
    }
    count
}

/// Whether a slot is freed.
fn is_freed(slot: &SlotWanted) -> bool
    ensures { result ≡ is_freed slot.now }
{
    matches!(slot.base, SlotBase::Free)
}
