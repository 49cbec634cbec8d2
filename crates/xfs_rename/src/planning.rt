//! The plan of a rebuild in which names change.

ghost use Rattle.std.specs.Prelude.{◌≡◌, ◌+◌, ◌≤◌, [], IfErr, IfOk, IsTrue, length};
ghost use Rattle.std.specs.List.{All};
ghost use Rattle.std.specs.List.Sorted.{IsNonDecreasingBy};
ghost use Rattle.std.specs.Option.{ForSome};
ghost use Rattle.xfs_disk.specs.Reads.{OnlyReads};
ghost use Rattle.xfs_geom.specs.Volumes.{stated_volume, volume_of};
ghost use Rattle.xfs_geom.specs.Writing.{IsAcceptedSector};
ghost use Rattle.xfs_render.specs.declared.wanted_slots.SlotWanted.{SlotWanted};
ghost use Rattle.xfs_rebuild.specs.xfs_request.Slots.{StandByNumber};
ghost use Rattle.xfs_naming.specs.Naming.{NumbersAscend};
ghost use Rattle.xfs_rebuild.specs.Bytes.{AreAtHand, AreReadOf};
ghost use Rattle.xfs_rebuild.specs.Rebuilds.{CanBeWritten, HasNamesDue};
ghost use Rattle.xfs_rebuild.specs.Refusals.{HasRebuildCause, IsReadRefused};
ghost use Rattle.xfs_names.specs.declared.building.BuiltDirectory.{BuiltDirectory};
ghost use Rattle.xfs_volume.specs.declared.files.FileRec.{FileRec};
ghost use Rattle.xfs_changes.specs.Forks.{forks_of};
ghost use Rattle.xfs_changes.specs.xfs_built.Asks.{blocks_of_built};
ghost use Rattle.xfs_changes.specs.Slots.{changes_of, with_changes};
ghost use Rattle.xfs_rebuild.specs.declared.names_due.NamesDue.{NamesDue};
ghost use Rattle.xfs_rename.specs.Renames.{IsAskedFor, IsRenamed, IsRenameRefused, IsRoomFault, IsSettling, cleared_beside, lsns_due, stays_freed};

use crate::settling::{Settling, settle};
use crate::wanting::{SettledAsk, ask_settled};
use std::alloc::Global;
use std::sync::ledger::Ledger;
use std::thread::Threads;
use xfs_changes::{Lost, Ways, blocks_of_built, changes_of, forks_of, with_changes};
use xfs_collections::{BlockList, Steps};
use xfs_disk::{Disk, Gate, NoMemory, Stamp};
use xfs_geom::{Elected, Geometry};
use xfs_place::{PlaceFault, Placed, place};
use xfs_rebuild::{
    BoxedNames, NamesDue, RebuildFault, Rebuilt, gather_bytes, kept_numbers, plan_placed,
};
use xfs_render::{Bytes, SlotBase, SlotWanted, chunks_are_few};
use xfs_salvage::Salvaged;
use xfs_volume::Records;

/// What is to be written of a volume in which names change.
#[derive(Drop)]
pub struct Renamed {
    /// The blocks that differ from those on the disk, how many inodes are then in use, and how many slots are freed.
    pub rebuilt: Rebuilt,
    /// How many files are put into lost+found.
    pub orphans: u64,
}

/// The blocks that are to be written of a volume in which a name or a directory has to change. Directories that are not whole, or
/// whose entries, parent or types are not those that are due, are built anew on blocks of their own; files without a name go to
/// lost+found. The disk is only read: as for a rebuild in which no name changes, with the blocks of a new cluster.
///
/// `NoRoom` of lost+found where it needs a cluster and finds none, of the first directory that finds no room, else of the first
/// group; `ReadFault` only where a read failed; `NoMemory` where memory is wanting, or where what was found or is then read of
/// the disk cannot be that of any image.
pub fn plan_names<R: Threads + Sync, D: Disk, G: Gate, L: Ledger>(
    rt: &R,
    alloc: Global,
    disk: &mut D,
    chosen: &Elected,
    due: BoxedNames,
    stamp: &Stamp,
    gate: &G,
    steps: &mut Steps<L>,
) -> Result<Renamed, RebuildFault>
    requires accepted { IsAcceptedSector chosen.now.sector }
    requires states { volume_of chosen.now.geometry ≡ stated_volume chosen.now.sector }
    requires inside { chosen.now.geometry.dblocks ≤ D.size disk.old }
    requires due { HasNamesDue chosen.now.geometry stamp.now due }
    ensures writable { IfOk result (λ r. CanBeWritten (D.size disk.old) r.rebuilt) }
    ensures renamed { IfOk result (λ r. ForSome (D.holds disk.old) (λ image. IsRenamed chosen.now.geometry chosen.now.sector stamp.now image due r)) }
    ensures refused { IfErr result (IsRenameRefused chosen.now.geometry due) }
    ensures cause { HasRebuildCause (D.faults disk.old) (D.faults disk.new) result }
    ensures disk { OnlyReads D.size D.holds D.write_faults D.writes D.tells_stops D.moment D.may_leave D.left_since disk.old disk.new }
{
    match settled(alloc, &chosen.geometry, due.as_names(), stamp) {
        Ok(settling) => plan_renamed(rt, alloc, disk, chosen, due, settling, stamp, gate, steps),
        Err(fault) => Err(fault),
    }
}

/// The names, settled.
fn settled(
    alloc: Global,
    g: &Geometry,
    due: &NamesDue,
    stamp: &Stamp,
) -> Result<Settling, RebuildFault>
    requires due { HasNamesDue g.now stamp.now due.now }
    ensures settled { IfOk result (IsSettling g.now due.now) }
    ensures refused { IfErr result (IsRenameRefused g.now due.now) }
    ensures cause { IfErr result IsRoomFault }
{
    match settle(alloc, g, due, stamp) {
        Ok(settling) => Ok(settling),
        Err(PlaceFault::NoRoom(what)) => Err(RebuildFault::NoRoom(what)),
        Err(PlaceFault::NoMemory) => Err(RebuildFault::NoMemory),
    }
}

/// The same once the names are settled and the directories built.
fn plan_renamed<R: Threads + Sync, D: Disk, G: Gate, L: Ledger>(
    rt: &R,
    alloc: Global,
    disk: &mut D,
    chosen: &Elected,
    due: BoxedNames,
    settling: Settling,
    stamp: &Stamp,
    gate: &G,
    steps: &mut Steps<L>,
) -> Result<Renamed, RebuildFault>
    requires accepted { IsAcceptedSector chosen.now.sector }
    requires states { volume_of chosen.now.geometry ≡ stated_volume chosen.now.sector }
    requires inside { chosen.now.geometry.dblocks ≤ D.size disk.old }
    requires due { HasNamesDue chosen.now.geometry stamp.now due }
    requires settling { IsSettling chosen.now.geometry due settling }
    ensures writable { IfOk result (λ r. CanBeWritten (D.size disk.old) r.rebuilt) }
    ensures renamed { IfOk result (λ r. ForSome (D.holds disk.old) (λ image. IsRenamed chosen.now.geometry chosen.now.sector stamp.now image due r)) }
    ensures refused { IfErr result (IsRenameRefused chosen.now.geometry due) }
    ensures cause { HasRebuildCause (D.faults disk.old) (D.faults disk.new) result }
    ensures disk { OnlyReads D.size D.holds D.write_faults D.writes D.tells_stops D.moment D.may_leave D.left_since disk.old disk.new }
{
    let orphans = settling.orphans;
    match plan_settled(rt, alloc, disk, chosen, due, &settling, stamp, gate, steps) {
        Ok(rebuilt) => {
            drop(settling);
            Ok(Renamed { rebuilt, orphans })
        }
        Err(fault) => {
            drop(settling);
            Err(fault)
        }
    }
}

/// The blocks that are to be written once the names are settled.
fn plan_settled<R: Threads + Sync, D: Disk, G: Gate, L: Ledger>(
    rt: &R,
    alloc: Global,
    disk: &mut D,
    chosen: &Elected,
    due: BoxedNames,
    settling: &Settling,
    stamp: &Stamp,
    gate: &G,
    steps: &mut Steps<L>,
) -> Result<Rebuilt, RebuildFault>
    requires accepted { IsAcceptedSector chosen.now.sector }
    requires states { volume_of chosen.now.geometry ≡ stated_volume chosen.now.sector }
    requires inside { chosen.now.geometry.dblocks ≤ D.size disk.old }
    requires due { HasNamesDue chosen.now.geometry stamp.now due }
    requires settling { IsSettling chosen.now.geometry due settling.now }
    ensures writable { IfOk result (CanBeWritten (D.size disk.old)) }
    ensures renamed { IfOk result (λ r. ForSome (D.holds disk.old) (λ image.
        IsRenamed chosen.now.geometry chosen.now.sector stamp.now image due (record { rebuilt = r; orphans = settling.now.orphans }))) }
    ensures refused { IfErr result (IsRenameRefused chosen.now.geometry due) }
    ensures cause { HasRebuildCause (D.faults disk.old) (D.faults disk.new) result }
    ensures disk { OnlyReads D.size D.holds D.write_faults D.writes D.tells_stops D.moment D.may_leave D.left_since disk.old disk.new }
{
    match ask_settled(alloc, &chosen.geometry, due, settling, stamp) {
        Ok(asked) => {
            let planned = plan_asked(
                rt, alloc, disk, chosen, settling, &asked, stamp, gate, steps,
            );
            drop(asked);
            planned
        }
        Err(NoMemory) => Err(RebuildFault::NoMemory),
    }
}

/// The same, by what is asked of the volume.
fn plan_asked<R: Threads + Sync, D: Disk, G: Gate, L: Ledger>(
    rt: &R,
    alloc: Global,
    disk: &mut D,
    chosen: &Elected,
    settling: &Settling,
    asked: &SettledAsk,
    stamp: &Stamp,
    gate: &G,
    steps: &mut Steps<L>,
) -> Result<Rebuilt, RebuildFault>
    requires accepted { IsAcceptedSector chosen.now.sector }
    requires states { volume_of chosen.now.geometry ≡ stated_volume chosen.now.sector }
    requires inside { chosen.now.geometry.dblocks ≤ D.size disk.old }
    requires asked { (n : NamesDue) × IsAskedFor chosen.now.geometry stamp.now n settling.now asked.now }
    ensures writable { IfOk result (CanBeWritten (D.size disk.old)) }
    ensures renamed { (n : NamesDue) → IsAskedFor chosen.now.geometry stamp.now n settling.now asked.now → IfOk result (λ r. ForSome (D.holds disk.old) (λ image.
        IsRenamed chosen.now.geometry chosen.now.sector stamp.now image n (record { rebuilt = r; orphans = settling.now.orphans }))) }
    ensures refused { (n : NamesDue) → IsAskedFor chosen.now.geometry stamp.now n settling.now asked.now → IfErr result (IsRenameRefused chosen.now.geometry n) }
    ensures cause { HasRebuildCause (D.faults disk.old) (D.faults disk.new) result }
    ensures disk { OnlyReads D.size D.holds D.write_faults D.writes D.tells_stops D.moment D.may_leave D.left_since disk.old disk.new }
{
    chunks_are_few(&asked.wanted);
    let placed = match place(alloc, &asked.wanted) {
        Ok(placed) => placed,
        Err(PlaceFault::NoRoom(what)) => return Err(RebuildFault::NoRoom(what)),
        Err(PlaceFault::NoMemory) => return Err(RebuildFault::NoMemory),
    };
    let bytes = match settled_bytes(alloc, disk, chosen, settling, asked, &placed, stamp, steps) {
        Ok(bytes) => bytes,
        Err(fault) => {
            drop(placed);
            return Err(fault);
        }
    };
    let count = names_of(settling);
    let cleared = cleared_beside(&settling.lost, asked.slots.as_slice());
    let planned = plan_placed(
        rt,
        alloc,
        disk,
        &asked.wanted,
        &placed,
        &bytes,
        count,
        cleared,
        gate,
    );
    drop(bytes);
    drop(placed);
    planned
}

/// How many files have names.
fn names_of(settling: &Settling) -> u64
    ensures { result ≡ length settling.now.names.links }
{
    settling.names.links.as_slice().len() as u64
}

/// What the blocks are made of, where the directories stand: as where no name changes, with the blocks of the directories.
fn settled_bytes<D: Disk, L: Ledger>(
    alloc: Global,
    disk: &mut D,
    chosen: &Elected,
    settling: &Settling,
    asked: &SettledAsk,
    placed: &Placed,
    stamp: &Stamp,
    steps: &mut Steps<L>,
) -> Result<Bytes, RebuildFault>
    requires inside { chosen.now.geometry.dblocks ≤ D.size disk.old }
    requires files { IsNonDecreasingBy (λ (f : FileRec). f.ino) asked.now.kept.files }
    requires clusters { NumbersAscend 0 asked.now.kept.clusters }
    requires lie { All (λ cluster. cluster + 4 ≤ chosen.now.geometry.dblocks) asked.now.kept.clusters }
    requires built { IsNonDecreasingBy (λ (b : BuiltDirectory). b.ino) settling.now.built }
    ensures order { IfOk result (λ b. IsNonDecreasingBy (λ (w : SlotWanted). w.ino) b.slots) }
    ensures slots { IfOk result (λ b. b.slots ≡ with_changes (changes_of (volume_of chosen.now.geometry) stamp.now settling.now.lost asked.now.kept.files
        (forks_of (volume_of chosen.now.geometry) asked.now.kept.files settling.now.built placed.now.cuts placed.now.runs) settling.now.names.links) asked.now.slots) }
    ensures at_hand { IfOk result (λ b. AreAtHand chosen.now.geometry chosen.now.sector stamp.now asked.now.kept.clusters b.slots (record b { objects = [] })) }
    ensures objects { IfOk result (λ b. b.objects ≡ blocks_of_built settling.now.built) }
    ensures read { IfOk result (λ b. ForSome (D.holds disk.old) (λ image.
        AreReadOf image (lsns_due chosen.now.geometry image asked.now.kept asked.now.seen) asked.now.log (record b { objects = [] }))) }
    ensures refused { IfErr result IsReadRefused }
    ensures cause { HasRebuildCause (D.faults disk.old) (D.faults disk.new) result }
    ensures disk { OnlyReads D.size D.holds D.write_faults D.writes D.tells_stops D.moment D.may_leave D.left_since disk.old disk.new }
{
    let kept = &asked.kept;
    let before = asked.slots.as_slice();
    let slots = match slots_of(alloc, chosen, settling, kept, placed, before, stamp) {
        Ok(slots) => Records::from_vec(slots),
        Err(NoMemory) => return Err(RebuildFault::NoMemory),
    };
    let seen = asked.seen.as_slice();
    let numbers = match kept_numbers(alloc, &chosen.geometry, disk, kept, seen, steps) {
        Ok(numbers) => numbers,
        Err(fault) => {
            drop(slots);
            return Err(fault);
        }
    };
    let bytes = match gather_bytes(
        alloc,
        disk,
        chosen,
        kept.clusters.as_slice(),
        slots,
        numbers.as_slice(),
        &asked.log,
        stamp,
    ) {
        Ok(bytes) => bytes,
        Err(fault) => return Err(fault),
    };
    match blocks_of_built(alloc, settling.built.as_slice()) {
        Ok(objects) => Ok(with_objects(bytes, objects)),
        Err(NoMemory) => {
            drop(bytes);
            Err(RebuildFault::NoMemory)
        }
    }
}

/// The bytes, with the blocks of objects.
fn with_objects(bytes: Bytes, objects: BlockList) -> Bytes
    ensures { result ≡ record bytes { objects = objects } }
{
    Bytes { objects, ..bytes }
}

/// What is wanted of slots, where the directories stand. `NoMemory` where memory is wanting, or where slots do not stand by inode,
/// as those of any image do, whose files stand in kept clusters.
fn slots_of(
    alloc: Global,
    chosen: &Elected,
    settling: &Settling,
    kept: &Salvaged,
    placed: &Placed,
    slots: &[SlotWanted],
    stamp: &Stamp,
) -> Result<Vec<SlotWanted>, NoMemory>
    requires files { IsNonDecreasingBy (λ (f : FileRec). f.ino) kept.now.files }
    requires built { IsNonDecreasingBy (λ (b : BuiltDirectory). b.ino) settling.now.built }
    ensures order { IfOk result (λ all. IsNonDecreasingBy (λ (w : SlotWanted). w.ino) all.items) }
    ensures slots { IfOk result (λ all. all.items ≡ with_changes (changes_of (volume_of chosen.now.geometry) stamp.now settling.now.lost kept.now.files
        (forks_of (volume_of chosen.now.geometry) kept.now.files settling.now.built placed.now.cuts placed.now.runs) settling.now.names.links) slots.now) }
{
    let files = kept.files.as_slice();
    let forks = forks_of(
        alloc,
        &chosen.geometry,
        files,
        settling.built.as_slice(),
        placed.cuts.as_slice(),
        placed.runs.as_slice(),
    )?;
    let ways = Ways {
        g: &chosen.geometry,
        stamp,
        lost: &settling.lost,
        files,
        forks: forks.as_slice(),
    };
    let changes = changes_of(alloc, &ways, settling.names.links.as_slice())?;
    let all = with_changes(alloc, changes.as_slice(), slots)?;
    if !stand_by_number(&all) {
        return Err(NoMemory);
    }
    Ok(all)
}

/// Whether slots stand by inode.
fn stand_by_number(slots: &[SlotWanted]) -> bool
    ensures { IsTrue result → StandByNumber (λ (w : SlotWanted). w.ino) 0 slots.now }
{
    let mut least = 0;
    for slot in slots {
        if slot.ino < least {
            return false;
        }
        least = slot.ino;
    }
    true
}

/// How many of the slots are freed that were to be: not that of lost+found.
fn cleared_beside(lost: &Lost, slots: &[SlotWanted]) -> u64
    ensures { result ≡ cleared_beside lost.now slots.now }
{
    let mut count = 0;
    for slot in slots {
        if stays_freed(lost, slot) {
            count += 1;
        }
    }
    count
}

/// Whether a slot is freed that was to be.
fn stays_freed(lost: &Lost, slot: &SlotWanted) -> bool
    ensures { result ≡ stays_freed lost.now slot.now }
{
    matches!(slot.base, SlotBase::Free) && !(lost.made && slot.ino == lost.new)
}
