//! The evidence of a volume, gathered from a disk.

ghost use Rattle.std.specs.Prelude.{◌≡◌, ◌+◌, ◌*◌, ◌^◌, ◌≤◌, true, length, None, IfOk, IfSome};
ghost use Rattle.std.specs.Option.{ForSome};
ghost use Rattle.xfs_geom.specs.Volumes.{volume_of};
ghost use Rattle.xfs_disk.specs.Reads.{OnlyReads};
ghost use Rattle.xfs_groups.specs.Answers.{EndBelow, hold_no_object};
ghost use Rattle.xfs_image.specs.Claims.{candidate_inodes};
ghost use Rattle.xfs_image.specs.View.{log_of};
ghost use Rattle.xfs_scan.specs.Answers.{HasRefused, HasRefusedFound, HasScanCause, IsLateRefusal, log_fault_of};
ghost use Rattle.xfs_scan.specs.Evidence.{AreSeen, IsEvidence, joined_parts};
ghost use Rattle.xfs_slots.specs.Facts.{slot_facts};
ghost use Rattle.xfs_slots.specs.Gathered.{gathered, held_in};
ghost use Rattle.xfs_scan.specs.Refused.{late_in, refused, refused_late};

use crate::evidence::{BoxedSeen, Evidence, Seen};
use crate::faults::{ScanFault, answer};
use crate::limits::{INODES, MOST_INODES, count_extents, count_inodes, refusal};
use crate::scan::{ScannedSlots, scan};
use crate::view::see_view;
use std::alloc::Global;
use std::sync::ledger::Ledger;
use std::thread::Threads;
use xfs_collections::Steps;
use xfs_disk::{Disk, Gate, NoMemory};
use xfs_geom::Geometry;
use xfs_groups::{GroupTrees, Groups, GroupsFault, see_groups};
use xfs_journal::{JournalFault, read_log};
use xfs_log::LogState;
use xfs_rounds::SlotFact;
use xfs_slots::Inodes;
use xfs_volume::{Blocks, ClusterRec, Records};

/// The evidence of the volume that a disk holds. `ReadFault` only where a read failed. Each block that is read counts as a
/// step, also where the read fails. The work is cut into pieces for so many workers, each of which goes through the gate first.
///
/// Blocks of clusters that their group names in full are looked at where their slots are read, and by themselves only where one of them
/// does not begin as a slot does: then all is read once more.
pub fn gather<R: Threads + Sync, D: Disk, G: Gate, L: Ledger>(
    rt: &R,
    alloc: Global,
    g: &Geometry,
    disk: &mut D,
    workers: u32,
    gate: &G,
    steps: &mut Steps<L>,
) -> Result<Evidence, ScanFault>
    requires inside { g.now.dblocks ≤ D.size disk.old }
    ensures evidence { IfOk result (λ e. ForSome (D.holds disk.old) (λ image. IsEvidence g.now image e)) }
    ensures refused { ForSome (D.holds disk.old) (λ image. HasRefused (refused (volume_of g.now) image) result) }
    ensures cause { HasScanCause (D.faults disk.old) (D.faults disk.new) result }
    ensures disk { OnlyReads D.size D.holds D.write_faults D.writes D.tells_stops D.moment D.may_leave D.left_since disk.old disk.new }
    ensures reads { D.reads disk.new + steps.old ≤ D.reads disk.old + steps.new }
{
    match gather_named(rt, alloc, g, disk, workers, gate, steps) {
        Ok(found) => match found {
            Some(evidence) => Ok(evidence),
            None => gather_looked(rt, alloc, g, disk, workers, gate, steps),
        },
        Err(fault) => Err(fault),
    }
}

/// The evidence of a volume each of whose candidate clusters was looked at.
fn gather_looked<R: Threads + Sync, D: Disk, G: Gate, L: Ledger>(
    rt: &R,
    alloc: Global,
    g: &Geometry,
    disk: &mut D,
    workers: u32,
    gate: &G,
    steps: &mut Steps<L>,
) -> Result<Evidence, ScanFault>
    requires inside { g.now.dblocks ≤ D.size disk.old }
    ensures evidence { IfOk result (λ e. ForSome (D.holds disk.old) (λ image. IsEvidence g.now image e)) }
    ensures refused { ForSome (D.holds disk.old) (λ image. HasRefused (refused (volume_of g.now) image) result) }
    ensures cause { HasScanCause (D.faults disk.old) (D.faults disk.new) result }
    ensures disk { OnlyReads D.size D.holds D.write_faults D.writes D.tells_stops D.moment D.may_leave D.left_since disk.old disk.new }
    ensures reads { D.reads disk.new + steps.old ≤ D.reads disk.old + steps.new }
{
    let seen = match see_groups(rt, alloc, g, disk, true, workers, gate, steps) {
        Ok(seen) => seen,
        Err(GroupsFault::ReadFault) => return Err(ScanFault::ReadFault),
        Err(GroupsFault::NoMemory) => return Err(ScanFault::NoMemory),
    };
    let count = count_inodes(g, seen.clusters.as_slice());
    if count > MOST_INODES {
        drop(seen);
        return Err(ScanFault::TooLarge {
            what: INODES,
            count,
        });
    }
    gather_files(rt, alloc, g, disk, seen, workers, gate, steps)
}

/// The evidence of a volume, found without a look at the clusters that its groups name in full; none where that does not do.
fn gather_named<R: Threads + Sync, D: Disk, G: Gate, L: Ledger>(
    rt: &R,
    alloc: Global,
    g: &Geometry,
    disk: &mut D,
    workers: u32,
    gate: &G,
    steps: &mut Steps<L>,
) -> Result<Option<Evidence>, ScanFault>
    requires inside { g.now.dblocks ≤ D.size disk.old }
    ensures evidence { IfOk result (λ found. IfSome found (λ e. ForSome (D.holds disk.old) (λ image. IsEvidence g.now image e))) }
    ensures refused { ForSome (D.holds disk.old) (λ image. HasRefusedFound (refused (volume_of g.now) image) result) }
    ensures cause { HasScanCause (D.faults disk.old) (D.faults disk.new) result }
    ensures disk { OnlyReads D.size D.holds D.write_faults D.writes D.tells_stops D.moment D.may_leave D.left_since disk.old disk.new }
    ensures reads { D.reads disk.new + steps.old ≤ D.reads disk.old + steps.new }
{
    let seen = match see_groups(rt, alloc, g, disk, false, workers, gate, steps) {
        Ok(seen) => seen,
        Err(GroupsFault::ReadFault) => return Err(ScanFault::ReadFault),
        Err(GroupsFault::NoMemory) => return Err(ScanFault::NoMemory),
    };
    if count_inodes(g, seen.clusters.as_slice()) > MOST_INODES {
        drop(seen);
        return Ok(None);
    }
    gather_begun(rt, alloc, g, disk, seen, workers, gate, steps)
}

/// The same of clusters that are not too many, where each of their blocks begins as a slot does.
fn gather_begun<R: Threads + Sync, D: Disk, G: Gate, L: Ledger>(
    rt: &R,
    alloc: Global,
    g: &Geometry,
    disk: &mut D,
    seen: Groups,
    workers: u32,
    gate: &G,
    steps: &mut Steps<L>,
) -> Result<Option<Evidence>, ScanFault>
    requires inside { g.now.dblocks ≤ D.size disk.old }
    requires seen { ForSome (D.holds disk.old) (λ image. hold_no_object (volume_of g.now) image seen.clusters ≡ true → AreSeen g.now image seen) }
    requires low { EndBelow g.now.dblocks seen.clusters }
    requires few { 32 * length seen.clusters ≤ 2 ^ 21 }
    ensures evidence { IfOk result (λ found. IfSome found (λ e. ForSome (D.holds disk.old) (λ image. IsEvidence g.now image e))) }
    ensures refused { ForSome (D.holds disk.old) (λ image. HasRefusedFound (refused (volume_of g.now) image) result) }
    ensures cause { HasScanCause (D.faults disk.old) (D.faults disk.new) result }
    ensures disk { OnlyReads D.size D.holds D.write_faults D.writes D.tells_stops D.moment D.may_leave D.left_since disk.old disk.new }
    ensures reads { D.reads disk.new + steps.old ≤ D.reads disk.old + steps.new }
{
    let scanned = match scan(
        rt,
        alloc,
        g,
        disk,
        seen.clusters.as_slice(),
        workers,
        gate,
        steps,
    ) {
        Ok(scanned) => scanned,
        Err(error) => {
            drop(seen);
            return Err(answer(error));
        }
    };
    if !scanned.begun {
        drop(seen);
        drop(scanned);
        return Ok(None);
    }
    match gather_scanned(alloc, g, disk, seen, scanned, steps) {
        Ok(evidence) => Ok(Some(evidence)),
        Err(fault) => Err(fault),
    }
}

/// The evidence of a volume whose clusters are not too many.
fn gather_files<R: Threads + Sync, D: Disk, G: Gate, L: Ledger>(
    rt: &R,
    alloc: Global,
    g: &Geometry,
    disk: &mut D,
    seen: Groups,
    workers: u32,
    gate: &G,
    steps: &mut Steps<L>,
) -> Result<Evidence, ScanFault>
    requires inside { g.now.dblocks ≤ D.size disk.old }
    requires seen { ForSome (D.holds disk.old) (λ image. AreSeen g.now image seen) }
    requires low { EndBelow g.now.dblocks seen.clusters }
    ensures evidence { IfOk result (λ e. ForSome (D.holds disk.old) (λ image. IsEvidence g.now image e)) }
    ensures refused { ForSome (D.holds disk.old) (λ image. HasRefused (refused_late (volume_of g.now) image) result) }
    ensures cause { HasScanCause (D.faults disk.old) (D.faults disk.new) result }
    ensures disk { OnlyReads D.size D.holds D.write_faults D.writes D.tells_stops D.moment D.may_leave D.left_since disk.old disk.new }
    ensures reads { D.reads disk.new + steps.old ≤ D.reads disk.old + steps.new }
{
    match scan(
        rt,
        alloc,
        g,
        disk,
        seen.clusters.as_slice(),
        workers,
        gate,
        steps,
    ) {
        Ok(scanned) => gather_scanned(alloc, g, disk, seen, scanned, steps),
        Err(error) => {
            drop(seen);
            Err(answer(error))
        }
    }
}

/// The evidence of a volume whose slots were scanned.
fn gather_scanned<D: Disk, L: Ledger>(
    alloc: Global,
    g: &Geometry,
    disk: &mut D,
    seen: Groups,
    scanned: ScannedSlots,
    steps: &mut Steps<L>,
) -> Result<Evidence, ScanFault>
    requires inside { g.now.dblocks ≤ D.size disk.old }
    requires seen { ForSome (D.holds disk.old) (λ image. AreSeen g.now image seen) }
    requires low { EndBelow g.now.dblocks seen.clusters }
    requires slots { ForSome (D.holds disk.old) (λ image. scanned.slots.items ≡ slot_facts (volume_of g.now) image) }
    requires inodes { ForSome (D.holds disk.old) (λ image. held_in scanned.inodes ≡ gathered (volume_of g.now) image (candidate_inodes (volume_of g.now) image)) }
    ensures evidence { IfOk result (λ e. ForSome (D.holds disk.old) (λ image. IsEvidence g.now image e)) }
    ensures refused { ForSome (D.holds disk.old) (λ image. HasRefused (refused_late (volume_of g.now) image) result) }
    ensures cause { HasScanCause (D.faults disk.old) (D.faults disk.new) result }
    ensures disk { OnlyReads D.size D.holds D.write_faults D.writes D.tells_stops D.moment D.may_leave D.left_since disk.old disk.new }
    ensures reads { D.reads disk.new + steps.old ≤ D.reads disk.old + steps.new }
{
    match prepare(alloc, g, disk, &scanned.inodes, steps) {
        Ok(prepared) => gather_prepared(alloc, g, disk, seen, scanned, prepared, steps),
        Err(fault) => {
            drop(seen);
            drop(scanned);
            Err(fault)
        }
    }
}

/// What is read behind the slots of a volume that is not refused.
#[derive(Drop)]
struct Prepared {
    /// The inodes of the files that read without their attributes.
    bare: Blocks,
    log: LogState,
}

/// Reads the log of a volume whose slots give these inodes, unless it is refused.
fn prepare<D: Disk, L: Ledger>(
    alloc: Global,
    g: &Geometry,
    disk: &mut D,
    inodes: &Inodes,
    steps: &mut Steps<L>,
) -> Result<Prepared, ScanFault>
    requires inside { g.now.dblocks ≤ D.size disk.old }
    ensures bare { IfOk result (λ prepared. prepared.bare ≡ inodes.now.bare.items) }
    ensures log { IfOk result (λ prepared. ForSome (D.holds disk.old) (λ image. prepared.log ≡ log_of (volume_of g.now) image)) }
    ensures refused { HasRefused (late_in inodes.now) result }
    ensures cause { HasScanCause (D.faults disk.old) (D.faults disk.new) result }
    ensures disk { OnlyReads D.size D.holds D.write_faults D.writes D.tells_stops D.moment D.may_leave D.left_since disk.old disk.new }
    ensures reads { D.reads disk.new + steps.old ≤ D.reads disk.old + steps.new }
{
    match late_refusal(inodes) {
        Some(fault) => return Err(fault),
        None => {}
    }
    match read_log(alloc, g, disk, steps) {
        Ok(log) => match copy_bare(alloc, inodes) {
            Ok(bare) => Ok(Prepared { bare, log }),
            Err(NoMemory) => Err(ScanFault::NoMemory),
        },
        Err(fault) => Err(log_answer(fault)),
    }
}

/// Why a volume is refused whose slots give these inodes.
fn late_refusal(inodes: &Inodes) -> Option<ScanFault>
    ensures { IsLateRefusal (late_in inodes.now) result }
{
    match count_extents(&inodes.files) {
        Some(extents) => refusal(
            extents,
            inodes.entries.as_slice().len() as u64,
            inodes.feature,
        ),
        // More extents than eight bytes can count are more than any memory holds.
        None => Some(ScanFault::NoMemory),
    }
}

/// The fault of the log, as the answer of the whole.
fn log_answer(fault: JournalFault) -> ScanFault
    ensures { result ≡ log_fault_of fault }
{
    match fault {
        JournalFault::ReadFault => ScanFault::ReadFault,
        JournalFault::NoMemory => ScanFault::NoMemory,
    }
}

/// The inodes of the files that read without their attributes.
fn copy_bare(alloc: Global, inodes: &Inodes) -> Result<Blocks, NoMemory>
    ensures { IfOk result (λ bare. bare ≡ inodes.now.bare.items) }
{
    Ok(Blocks::from_vec(Vec::from_slice(alloc, &inodes.bare)?))
}

/// The evidence of a volume that is not refused.
fn gather_prepared<D: Disk, L: Ledger>(
    alloc: Global,
    g: &Geometry,
    disk: &mut D,
    seen: Groups,
    scanned: ScannedSlots,
    prepared: Prepared,
    steps: &mut Steps<L>,
) -> Result<Evidence, ScanFault>
    requires inside { g.now.dblocks ≤ D.size disk.old }
    requires seen { ForSome (D.holds disk.old) (λ image. AreSeen g.now image seen) }
    requires low { EndBelow g.now.dblocks seen.clusters }
    requires slots { ForSome (D.holds disk.old) (λ image. scanned.slots.items ≡ slot_facts (volume_of g.now) image) }
    requires inodes { ForSome (D.holds disk.old) (λ image. held_in scanned.inodes ≡ gathered (volume_of g.now) image (candidate_inodes (volume_of g.now) image)) }
    requires bare { prepared.bare ≡ scanned.inodes.bare.items }
    requires log { ForSome (D.holds disk.old) (λ image. prepared.log ≡ log_of (volume_of g.now) image) }
    ensures evidence { IfOk result (λ e. ForSome (D.holds disk.old) (λ image. IsEvidence g.now image e)) }
    ensures refused { HasRefused None result }
    ensures cause { HasScanCause (D.faults disk.old) (D.faults disk.new) result }
    ensures disk { OnlyReads D.size D.holds D.write_faults D.writes D.tells_stops D.moment D.may_leave D.left_since disk.old disk.new }
    ensures reads { D.reads disk.new + steps.old ≤ D.reads disk.old + steps.new }
{
    let Groups {
        groups,
        clusters,
        trees,
    } = seen;
    let ScannedSlots { slots, inodes, .. } = scanned;
    let Prepared { bare, log } = prepared;
    match see_view(
        alloc,
        g,
        disk,
        groups,
        clusters.as_slice(),
        &slots,
        inodes,
        log,
        steps,
    ) {
        Ok(held) => match evidence_of(alloc, clusters, slots, bare, trees, held, log) {
            Ok(evidence) => Ok(evidence),
            Err(NoMemory) => Err(ScanFault::NoMemory),
        },
        Err(error) => {
            drop(clusters);
            drop(slots);
            drop(bare);
            drop(trees);
            Err(answer(error))
        }
    }
}

/// The evidence from its parts.
fn evidence_of(
    alloc: Global,
    clusters: Records<ClusterRec>,
    slots: Vec<SlotFact>,
    bare: Blocks,
    trees: Records<GroupTrees>,
    seen: Seen,
    log: LogState,
) -> Result<Evidence, NoMemory>
    ensures { IfOk result (λ e. e ≡ joined_parts clusters slots.items bare trees seen log) }
{
    let seen = BoxedSeen::new(alloc, seen)?;
    Ok(Evidence {
        clusters,
        slots: Records::from_vec(slots),
        bare,
        trees,
        seen,
        log,
    })
}
