//! The plan of a rebuild.

ghost use Rattle.std.specs.Prelude.{◌≡◌, ◌+◌, ◌≤◌, ◌⊎◌, IfErr, IfOk};
ghost use Rattle.std.specs.List.{All};
ghost use Rattle.std.specs.List.Sorted.{IsNonDecreasingBy};
ghost use Rattle.std.specs.Option.{ForSome};
ghost use Rattle.xfs_disk.specs.Reads.{OnlyReads};
ghost use Rattle.xfs_geom.specs.Volumes.{stated_volume, volume_of};
ghost use Rattle.xfs_geom.specs.Writing.{IsAcceptedSector};
ghost use Rattle.xfs_place.specs.Wanted.{CanBeKept, kept_runs};
ghost use Rattle.xfs_render.specs.Readiness.{HasBytes, IsWritable};
ghost use Rattle.xfs_render.specs.declared.bytes.Bytes.{Bytes};
ghost use Rattle.xfs_render.specs.declared.wanted_slots.SlotWanted.{SlotWanted};
ghost use Rattle.xfs_request.specs.Cycles.{kept_lsns};
ghost use Rattle.xfs_rebuild.specs.Bytes.{AreAtHand, file_lsns};
ghost use Rattle.xfs_rebuild.specs.Private.Asked.{IsMadeOf, IsRequestOf};
ghost use Rattle.xfs_rebuild.specs.Rebuilds.{CanBeWritten, IsFound, IsPlannedOn, IsRebuildOf, ground, names_due_of};
ghost use Rattle.xfs_rebuild.specs.Refusals.{HasRebuildCause, IsPlaceRefused, IsRefused, IsRefusedOn};

use crate::bytes::{gather_bytes, kept_numbers};
use crate::faults::RebuildFault;
use crate::found::{records_found, reserved_found};
use crate::names::{DueNames, Judged, judge_names};
use crate::names_due::{BoxedNames, NamesDue};
use crate::rendering::plan_wanted;
use crate::seen::slots_found;
use std::alloc::Global;
use std::sync::ledger::Ledger;
use std::thread::Threads;
use xfs_collections::{BlockList, Steps};
use xfs_disk::{Disk, Gate, NoMemory, Stamp};
use xfs_geom::Elected;
use xfs_log::LogState;
use xfs_request::{Request, SlotSeen, ask};
use xfs_salvage::{Salvaged, salvage};
use xfs_scan::Evidence;
use xfs_volume::{Blocks, Records};
use xfs_writing::Row;

/// The blocks of a rebuilt volume that differ from those on the disk.
#[derive(Drop)]
pub struct Rebuilt {
    /// Their bytes, and those of blocks that are equal.
    pub bank: BlockList,
    /// The blocks that nothing kept stands on, ascending.
    pub fresh: Records<Row>,
    /// Those that are written in place, ascending.
    pub in_place: Records<Row>,
    /// How many inodes are then in use.
    pub kept: u64,
    /// How many slots are freed.
    pub cleared: u64,
}

/// The blocks that are to be written of a volume that is rebuilt round what is kept of its evidence. The disk is only read: the
/// blocks of the kept files that state log sequence numbers, the first block of each group and those of the kept clusters of which a
/// slot is to change, and then each planned block, to see whether it differs.
///
/// `Names` where a name or a directory would have to change; else `NoRoom` of the first group whose trees find none;
/// `ReadFault` only where a read failed; `NoMemory` where memory is wanting, or where the evidence or what is then read of the
/// disk cannot be that of any image.
pub fn plan_rebuild<R: Threads + Sync, D: Disk, G: Gate, L: Ledger>(
    rt: &R,
    alloc: Global,
    disk: &mut D,
    chosen: &Elected,
    evidence: Evidence,
    stamp: &Stamp,
    gate: &G,
    steps: &mut Steps<L>,
) -> Result<Rebuilt, RebuildFault>
    requires accepted { IsAcceptedSector chosen.now.sector }
    requires states { volume_of chosen.now.geometry ≡ stated_volume chosen.now.sector }
    requires inside { chosen.now.geometry.dblocks ≤ D.size disk.old }
    ensures writable { IfOk result (CanBeWritten (D.size disk.old)) }
    ensures rebuilt { IfOk result (λ r. ForSome (D.holds disk.old) (λ image. IsRebuildOf chosen.now.geometry chosen.now.sector stamp.now image evidence r)) }
    ensures refused { IfErr result (IsRefused chosen.now.geometry stamp.now evidence) }
    ensures cause { HasRebuildCause (D.faults disk.old) (D.faults disk.new) result }
    ensures disk { OnlyReads D.size D.holds D.write_faults D.writes D.tells_stops D.moment D.may_leave D.left_since disk.old disk.new }
{
    let g = &chosen.geometry;
    let slots = match slots_found(alloc, g, &evidence) {
        Ok(slots) => slots,
        Err(NoMemory) => {
            drop(evidence);
            return Err(RebuildFault::NoMemory);
        }
    };
    let reserved = match reserved_found(alloc, &evidence) {
        Ok(reserved) => reserved,
        Err(NoMemory) => {
            drop(evidence);
            drop(slots);
            return Err(RebuildFault::NoMemory);
        }
    };
    let log = evidence.log;
    let kept = match salvage(rt, alloc, g, records_found(evidence), steps) {
        Ok(kept) => kept,
        Err(NoMemory) => {
            drop(slots);
            drop(reserved);
            return Err(RebuildFault::NoMemory);
        }
    };
    plan_kept(
        rt, alloc, disk, chosen, kept, slots, reserved, &log, stamp, gate, steps,
    )
}

/// The same round what is kept, by what is known of the slots of the candidate clusters, the reserved blocks and the log.
fn plan_kept<R: Threads + Sync, D: Disk, G: Gate, L: Ledger>(
    rt: &R,
    alloc: Global,
    disk: &mut D,
    chosen: &Elected,
    kept: Salvaged,
    seen: Records<SlotSeen>,
    reserved: Blocks,
    log: &LogState,
    stamp: &Stamp,
    gate: &G,
    steps: &mut Steps<L>,
) -> Result<Rebuilt, RebuildFault>
    requires accepted { IsAcceptedSector chosen.now.sector }
    requires states { volume_of chosen.now.geometry ≡ stated_volume chosen.now.sector }
    requires inside { chosen.now.geometry.dblocks ≤ D.size disk.old }
    requires found { IsFound (volume_of chosen.now.geometry) kept }
    ensures writable { IfOk result (CanBeWritten (D.size disk.old)) }
    ensures planned { IfOk result (λ r. ForSome (D.holds disk.old) (λ image.
        IsPlannedOn chosen.now.geometry chosen.now.sector stamp.now image (ground kept seen reserved log.now) r)) }
    ensures refused { IfErr result (IsRefusedOn chosen.now.geometry stamp.now (ground kept seen reserved log.now)) }
    ensures cause { HasRebuildCause (D.faults disk.old) (D.faults disk.new) result }
    ensures disk { OnlyReads D.size D.holds D.write_faults D.writes D.tells_stops D.moment D.may_leave D.left_since disk.old disk.new }
{
    let g = &chosen.geometry;
    match kept_numbers(alloc, g, disk, &kept, seen.as_slice(), steps) {
        Ok(numbers) => {
            let numbers = numbers.as_slice();
            plan_numbered(
                rt, alloc, disk, chosen, kept, seen, reserved, numbers, log, stamp, gate,
            )
        }
        Err(fault) => {
            drop(kept);
            drop(seen);
            drop(reserved);
            Err(fault)
        }
    }
}

/// The same where the log sequence numbers that stay are known.
fn plan_numbered<R: Threads + Sync, D: Disk, G: Gate>(
    rt: &R,
    alloc: Global,
    disk: &mut D,
    chosen: &Elected,
    kept: Salvaged,
    seen: Records<SlotSeen>,
    reserved: Blocks,
    numbers: &[u64],
    log: &LogState,
    stamp: &Stamp,
    gate: &G,
) -> Result<Rebuilt, RebuildFault>
    requires accepted { IsAcceptedSector chosen.now.sector }
    requires states { volume_of chosen.now.geometry ≡ stated_volume chosen.now.sector }
    requires inside { chosen.now.geometry.dblocks ≤ D.size disk.old }
    requires found { IsFound (volume_of chosen.now.geometry) kept }
    requires numbers { ForSome (D.holds disk.old) (λ image.
        numbers.now ≡ kept_lsns (volume_of chosen.now.geometry) kept seen (file_lsns (volume_of chosen.now.geometry) image kept.files)) }
    ensures writable { IfOk result (CanBeWritten (D.size disk.old)) }
    ensures planned { IfOk result (λ r. ForSome (D.holds disk.old) (λ image.
        IsPlannedOn chosen.now.geometry chosen.now.sector stamp.now image (ground kept seen reserved log.now) r)) }
    ensures refused { IfErr result (IsRefusedOn chosen.now.geometry stamp.now (ground kept seen reserved log.now)) }
    ensures cause { HasRebuildCause (D.faults disk.old) (D.faults disk.new) result }
    ensures disk { OnlyReads D.size D.holds D.write_faults D.writes D.tells_stops D.moment D.may_leave D.left_since disk.old disk.new }
{
    match ask(
        alloc,
        &chosen.geometry,
        &kept,
        seen.as_slice(),
        reserved,
        stamp,
    ) {
        Ok(request) => plan_request(
            rt, alloc, disk, chosen, kept, seen, request, numbers, log, stamp, gate,
        ),
        Err(NoMemory) => {
            drop(kept);
            drop(seen);
            Err(RebuildFault::NoMemory)
        }
    }
}

/// The same by what is asked.
fn plan_request<R: Threads + Sync, D: Disk, G: Gate>(
    rt: &R,
    alloc: Global,
    disk: &mut D,
    chosen: &Elected,
    kept: Salvaged,
    seen: Records<SlotSeen>,
    request: Request,
    numbers: &[u64],
    log: &LogState,
    stamp: &Stamp,
    gate: &G,
) -> Result<Rebuilt, RebuildFault>
    requires accepted { IsAcceptedSector chosen.now.sector }
    requires states { volume_of chosen.now.geometry ≡ stated_volume chosen.now.sector }
    requires inside { chosen.now.geometry.dblocks ≤ D.size disk.old }
    requires found { IsFound (volume_of chosen.now.geometry) kept }
    requires asked { IsRequestOf chosen.now.geometry stamp.now (ground kept seen request.wanted.reserved log.now) request }
    requires numbers { ForSome (D.holds disk.old) (λ image.
        numbers.now ≡ kept_lsns (volume_of chosen.now.geometry) kept seen (file_lsns (volume_of chosen.now.geometry) image kept.files)) }
    ensures writable { IfOk result (CanBeWritten (D.size disk.old)) }
    ensures planned { IfOk result (λ r. ForSome (D.holds disk.old) (λ image.
        IsPlannedOn chosen.now.geometry chosen.now.sector stamp.now image (ground kept seen request.wanted.reserved log.now) r)) }
    ensures refused { IfErr result (IsRefusedOn chosen.now.geometry stamp.now (ground kept seen request.wanted.reserved log.now)) }
    ensures cause { HasRebuildCause (D.faults disk.old) (D.faults disk.new) result }
    ensures disk { OnlyReads D.size D.holds D.write_faults D.writes D.tells_stops D.moment D.may_leave D.left_since disk.old disk.new }
{
    match judge_names(
        alloc,
        chosen.geometry.rootino,
        kept,
        request.slots.as_slice(),
    ) {
        Ok(Judged::Stay(clusters)) => {
            let clusters = clusters.as_slice();
            plan_staying(
                rt, alloc, disk, chosen, clusters, request, numbers, log, stamp, gate,
            )
        }
        Ok(Judged::Change(names)) => {
            Err(names_fault(alloc, names_due(request, names, seen, log)))
        }
        Err(NoMemory) => {
            drop(request);
            drop(seen);
            Err(RebuildFault::NoMemory)
        }
    }
}

/// The blocks for what is asked round clusters, where no name has to change.
fn plan_staying<R: Threads + Sync, D: Disk, G: Gate>(
    rt: &R,
    alloc: Global,
    disk: &mut D,
    chosen: &Elected,
    clusters: &[u64],
    request: Request,
    numbers: &[u64],
    log: &LogState,
    stamp: &Stamp,
    gate: &G,
) -> Result<Rebuilt, RebuildFault>
    requires inside { chosen.now.geometry.dblocks ≤ D.size disk.old }
    requires lie { All (λ cluster. cluster + 4 ≤ chosen.now.geometry.dblocks) clusters.now }
    requires order { IsNonDecreasingBy (λ (w : SlotWanted). w.ino) request.slots }
    requires size { request.wanted.geometry.dblocks ≤ D.size disk.old }
    requires stands { CanBeKept (volume_of request.wanted.geometry) (kept_runs request.wanted) }
    requires writable { IsWritable request.wanted }
    requires held { (b : Bytes) → AreAtHand chosen.now.geometry chosen.now.sector stamp.now clusters.now request.slots b → HasBytes request.wanted b }
    ensures writable { IfOk result (CanBeWritten (D.size disk.old)) }
    ensures made { IfOk result (λ r. ForSome (D.holds disk.old) (λ image.
        IsMadeOf chosen.now.geometry chosen.now.sector stamp.now image clusters.now request numbers.now log.now r)) }
    ensures refused { IfErr result (IsPlaceRefused request.wanted) }
    ensures cause { HasRebuildCause (D.faults disk.old) (D.faults disk.new) result }
    ensures disk { OnlyReads D.size D.holds D.write_faults D.writes D.tells_stops D.moment D.may_leave D.left_since disk.old disk.new }
{
    let Request {
        wanted,
        slots,
        kept,
        cleared,
    } = request;
    match gather_bytes(alloc, disk, chosen, clusters, slots, numbers, log, stamp) {
        Ok(bytes) => {
            let planned = plan_wanted(rt, alloc, disk, &wanted, &bytes, kept, cleared, gate);
            drop(bytes);
            drop(wanted);
            planned
        }
        Err(fault) => {
            drop(wanted);
            Err(fault)
        }
    }
}

/// A name has to change: the fault that says so, with what is known.
fn names_fault(alloc: Global, due: NamesDue) -> RebuildFault
    ensures { (result ≡ RebuildFault.Names due) ⊎ (result ≡ RebuildFault.NoMemory) }
{
    match BoxedNames::new(alloc, due) {
        Ok(due) => RebuildFault::Names(due),
        Err(_) => RebuildFault::NoMemory,
    }
}

/// What is known of a volume in which a name has to change, from its parts.
fn names_due(request: Request, names: DueNames, seen: Records<SlotSeen>, log: &LogState) -> NamesDue
    ensures { result ≡ names_due_of request.wanted request.slots names seen log.now }
{
    let Request { wanted, slots, .. } = request;
    let DueNames {
        files,
        entries,
        dirs,
        clusters,
        fresh,
    } = names;
    NamesDue {
        wanted,
        slots,
        files,
        entries,
        dirs,
        clusters,
        fresh,
        seen,
        log: *log,
    }
}
