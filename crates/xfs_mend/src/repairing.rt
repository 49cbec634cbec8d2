//! The repair of a volume: its backup superblocks alone, or all of it.

ghost use Rattle.std.specs.Prelude.{◌≡◌, ◌-◌, ◌<◌, ◌≤◌, ◌⊎◌, ◌&&◌, ℕ, false, true, not, length, IfOk, None, Ok, Some};
ghost use Rattle.std.specs.Option.{ForSome};
ghost use Rattle.xfs_disk.specs.Counts.{raised_times};
ghost use Rattle.xfs_disk.specs.Blocks.{Image};
ghost use Rattle.xfs_disk.specs.Reads.{OnlyReads};
ghost use Rattle.xfs_geom.specs.Election.{elected};
ghost use Rattle.xfs_geom.specs.Electing.{vote_of};
ghost use Rattle.xfs_geom.specs.Volumes.{volume_of, stated_volume};
ghost use Rattle.xfs_geom.specs.Writing.{IsAcceptedSector};
ghost use Rattle.xfs_laws.specs.Lawful.{broken_law};
ghost use Rattle.xfs_image.specs.Consistent.{finding};
ghost use Rattle.xfs_scan.specs.Evidence.{IsEvidence};
ghost use Rattle.xfs_mend.specs.Asked.{Asked, repair_asked};
ghost use Rattle.xfs_backups.specs.Backups.{steps_from};
ghost use Rattle.xfs_backups.specs.Causes.{HasMendCause};
ghost use Rattle.xfs_mend.specs.Due.{CanCome, IsDueFound, IsDueRepair, IsDueVolume, IsOwed, turned_away};
ghost use Rattle.xfs_mend.specs.Private.Ending.{Ends};
ghost use Rattle.xfs_mend.specs.Outcome.{IsRepairCause, IsDurableRepair, RepairLeaves, LeavesOf, StopsBy, StopsOf, blocks_told, is_quiet};
ghost use Rattle.xfs_mend.specs.Rebuilding.{is_backup};
ghost use Rattle.xfs_mend.specs.declared.outcome.Outcome.TheVariants.{Repaired};
ghost use Rattle.xfs_mend.specs.declared.outcome.Summary.TheVariants.{Backups};

use crate::finding::find_first;
use crate::outcome::{Outcome, RepairOptions, Summary};
use crate::rebuilding::rebuild;
use crate::refusals::{admit, answer_fault};
use std::alloc::Global;
use std::thread::Threads;
use xfs_backups::{MendFault, plan_backups};
use xfs_disk::{Disk, Gate, Stamp};
use xfs_geom::{ElectFault, Elected, Geometry, elect};
use xfs_image::Finding;
use xfs_scan::Evidence;
use xfs_writing::write_parts;

/// Elects the geometry, and checks all that the volume says. With `check` nothing is written, and the first thing that is wrong
/// is found. Else a volume that is not consistent is repaired. Where nothing but backup superblocks is wrong, those that don't agree
/// with the primary are written anew. Else the volume is rebuilt round what can be kept of it: its trees and headers, the slots
/// that are lost, and the log where it is dropped; where a name has to change, directories are built anew, and files without a
/// name go to lost+found. Fresh blocks are written before those in place. The outcomes come in this order: no geometry, or a feature
/// of the primary that is refused; a log that is not clean, where the volume is not only checked and the log is not to be dropped; a
/// volume that is too large; a file that is not supported; and what was found, or came of its repair, or finds no room.
pub fn repair<R: Threads + Sync, D: Disk, G: Gate>(
    rt: &R,
    alloc: Global,
    disk: &mut D,
    options: &RepairOptions,
    stamp: &Stamp,
    gate: &G,
) -> Outcome
    ensures due { ForSome (D.holds disk.old) (λ image. IsDueRepair (repair_asked options.now) stamp.now image result) }
    ensures cause { IsRepairCause (D.faults disk.old) (D.faults disk.new) (D.write_faults disk.old) (D.write_faults disk.new) result }
    ensures leaves { ForSome (D.holds disk.old) (λ image. RepairLeaves stamp.now image (D.holds disk.new) result) }
    ensures kept { IsDurableRepair (D.tells_stops disk.old) (D.holds disk.new) (D.may_leave disk.new) result }
    // just so many blocks were written as the outcome says: none after every outcome but a repair and a write fault
    ensures counted { D.writes disk.new ≡ raised_times (blocks_told result) (D.writes disk.old) }
    // after these outcomes the disk was only read
    ensures only_read { is_quiet result ≡ true → OnlyReads D.size D.holds D.write_faults D.writes D.tells_stops D.moment D.may_leave D.left_since disk.old disk.new }
    // where the image is only checked nothing is written, whatever the disk tells
    ensures checked { options.now.check ≡ true → D.writes disk.new ≡ D.writes disk.old }
    ensures possible { CanCome (repair_asked options.now) result }
    // a stop leaves what it might have left before, or, while the plan is written, old and planned blocks
    ensures stops { D.tells_stops disk.old → ForSome (D.holds disk.old) (λ image.
        (t : ℕ) (stopped : Image) → t ≤ D.moment disk.old → D.left_since disk.new t stopped → D.left_since disk.old t stopped ⊎ StopsBy stamp.now image result stopped) }
    ensures size { D.size disk.new ≡ D.size disk.old }
    ensures faults { D.faults disk.old ≤ D.faults disk.new }
    ensures write_faults { D.write_faults disk.old ≤ D.write_faults disk.new }
    ensures tells { D.tells_stops disk.old → D.tells_stops disk.new }
    ensures later { D.tells_stops disk.old → D.moment disk.old ≤ D.moment disk.new }
{
    repair_disk(rt, alloc, disk, options, stamp, gate)
}

/// The same. What is said of the disk beside its contents stands in one record, as in each part of a repair.
fn repair_disk<R: Threads + Sync, D: Disk, G: Gate>(
    rt: &R,
    alloc: Global,
    disk: &mut D,
    options: &RepairOptions,
    stamp: &Stamp,
    gate: &G,
) -> Outcome
    ensures due { ForSome (D.holds disk.old) (λ image. IsDueRepair (repair_asked options.now) stamp.now image result) }
    ensures leaves { ForSome (D.holds disk.old) (λ image. RepairLeaves stamp.now image (D.holds disk.new) result) }
    ensures stops { D.tells_stops disk.old → ForSome (D.holds disk.old) (λ image.
        (t : ℕ) (stopped : Image) → t ≤ D.moment disk.old → D.left_since disk.new t stopped → D.left_since disk.old t stopped ⊎ StopsBy stamp.now image result stopped) }
    ensures possible { CanCome (repair_asked options.now) result }
    ensures ends { Ends D.size D.holds D.faults D.write_faults D.writes D.tells_stops D.moment D.may_leave D.left_since disk.old disk.new result }
{
    let elected = match elect(alloc, disk) {
        Ok(elected) => elected,
        Err(ElectFault::NoGeometry) => return Outcome::NoGeometry,
        Err(ElectFault::Unsupported { word, bits }) => return Outcome::Unsupported { word, bits },
        Err(ElectFault::ReadFault) => return Outcome::ReadFault {
            faults: disk.faults(),
        },
        Err(ElectFault::NoMemory) => return Outcome::NoMemory,
    };
    repair_volume(rt, alloc, disk, options, &elected, stamp, gate)
}

/// The same, where a superblock is elected.
fn repair_volume<R: Threads + Sync, D: Disk, G: Gate>(
    rt: &R,
    alloc: Global,
    disk: &mut D,
    options: &RepairOptions,
    chosen: &Elected,
    stamp: &Stamp,
    gate: &G,
) -> Outcome
    requires accepted { IsAcceptedSector chosen.now.sector }
    requires sector { length chosen.now.sector ≡ 512 }
    requires stated { volume_of chosen.now.geometry ≡ stated_volume chosen.now.sector }
    requires inside { chosen.now.geometry.dblocks ≤ D.size disk.old }
    requires elects { ForSome (D.holds disk.old) (λ image. elected image ≡ Ok (vote_of chosen.now)) }
    ensures due { ForSome (D.holds disk.old) (λ image. IsOwed (IsDueVolume (repair_asked options.now) chosen.now.geometry stamp.now image) result) }
    ensures leaves { ForSome (D.holds disk.old) (λ image. RepairLeaves stamp.now image (D.holds disk.new) result) }
    ensures stops { D.tells_stops disk.old → ForSome (D.holds disk.old) (λ image.
        (t : ℕ) (stopped : Image) → t ≤ D.moment disk.old → D.left_since disk.new t stopped → D.left_since disk.old t stopped ⊎ StopsBy stamp.now image result stopped) }
    ensures possible { CanCome (repair_asked options.now) result }
    ensures ends { Ends D.size D.holds D.faults D.write_faults D.writes D.tells_stops D.moment D.may_leave D.left_since disk.old disk.new result }
{
    match admit(rt, alloc, disk, options, &chosen.geometry, gate) {
        Ok(evidence) => repair_seen(rt, alloc, disk, options, chosen, evidence, stamp, gate),
        Err(outcome) => outcome,
    }
}

/// The same, where a volume is not turned away.
fn repair_seen<R: Threads + Sync, D: Disk, G: Gate>(
    rt: &R,
    alloc: Global,
    disk: &mut D,
    options: &RepairOptions,
    chosen: &Elected,
    evidence: Evidence,
    stamp: &Stamp,
    gate: &G,
) -> Outcome
    requires accepted { IsAcceptedSector chosen.now.sector }
    requires sector { length chosen.now.sector ≡ 512 }
    requires stated { volume_of chosen.now.geometry ≡ stated_volume chosen.now.sector }
    requires inside { chosen.now.geometry.dblocks ≤ D.size disk.old }
    requires elects { ForSome (D.holds disk.old) (λ image. elected image ≡ Ok (vote_of chosen.now)) }
    requires admitted { ForSome (D.holds disk.old) (λ image. turned_away (repair_asked options.now) (volume_of chosen.now.geometry) image ≡ None) }
    requires evidence { ForSome (D.holds disk.old) (λ image. IsEvidence chosen.now.geometry image evidence) }
    ensures due { ForSome (D.holds disk.old) (λ image. IsOwed (IsDueVolume (repair_asked options.now) chosen.now.geometry stamp.now image) result) }
    ensures leaves { ForSome (D.holds disk.old) (λ image. RepairLeaves stamp.now image (D.holds disk.new) result) }
    ensures stops { D.tells_stops disk.old → ForSome (D.holds disk.old) (λ image.
        (t : ℕ) (stopped : Image) → t ≤ D.moment disk.old → D.left_since disk.new t stopped → D.left_since disk.old t stopped ⊎ StopsBy stamp.now image result stopped) }
    ensures possible { CanCome (repair_asked options.now) result }
    ensures ends { Ends D.size D.holds D.faults D.write_faults D.writes D.tells_stops D.moment D.may_leave D.left_since disk.old disk.new result }
{
    match find_seen(rt, alloc, options, disk, chosen, &evidence) {
        Ok(Some(found)) => answer_found(
            rt, alloc, disk, options, chosen, found, evidence, stamp, gate,
        ),
        Ok(None) => Outcome::Clean,
        Err(fault) => {
            drop(evidence);
            answer_fault(disk, fault)
        }
    }
}

/// The first thing that is wrong with a volume of which this was gathered.
fn find_seen<R: Threads + Sync, D: Disk>(
    rt: &R,
    alloc: Global,
    options: &RepairOptions,
    disk: &mut D,
    chosen: &Elected,
    evidence: &Evidence,
) -> Result<Option<Finding>, MendFault>
    requires sector { length chosen.now.sector ≡ 512 }
    requires stated { volume_of chosen.now.geometry ≡ stated_volume chosen.now.sector }
    requires inside { chosen.now.geometry.dblocks ≤ D.size disk.old }
    requires elects { ForSome (D.holds disk.old) (λ image. elected image ≡ Ok (vote_of chosen.now)) }
    requires evidence { ForSome (D.holds disk.old) (λ image. IsEvidence chosen.now.geometry image evidence.now) }
    ensures found { IfOk result (λ found. ForSome (D.holds disk.old) (λ image. found ≡ finding broken_law chosen.now.geometry image)) }
    ensures cause { HasMendCause (D.faults disk.old) (D.faults disk.new) result }
    ensures disk { OnlyReads D.size D.holds D.write_faults D.writes D.tells_stops D.moment D.may_leave D.left_since disk.old disk.new }
{
    find_first(
        rt,
        alloc,
        options.workers,
        disk,
        chosen,
        evidence.seen.as_seen(),
    )
}

/// What comes of a volume in which this is found first.
fn answer_found<R: Threads + Sync, D: Disk, G: Gate>(
    rt: &R,
    alloc: Global,
    disk: &mut D,
    options: &RepairOptions,
    chosen: &Elected,
    found: Finding,
    evidence: Evidence,
    stamp: &Stamp,
    gate: &G,
) -> Outcome
    requires accepted { IsAcceptedSector chosen.now.sector }
    requires sector { length chosen.now.sector ≡ 512 }
    requires stated { volume_of chosen.now.geometry ≡ stated_volume chosen.now.sector }
    requires inside { chosen.now.geometry.dblocks ≤ D.size disk.old }
    requires elects { ForSome (D.holds disk.old) (λ image. elected image ≡ Ok (vote_of chosen.now)) }
    requires admitted { ForSome (D.holds disk.old) (λ image. turned_away (repair_asked options.now) (volume_of chosen.now.geometry) image ≡ None) }
    requires found { ForSome (D.holds disk.old) (λ image. Some found ≡ finding broken_law chosen.now.geometry image) }
    requires evidence { ForSome (D.holds disk.old) (λ image. IsEvidence chosen.now.geometry image evidence) }
    ensures due { ForSome (D.holds disk.old) (λ image. IsOwed (IsDueFound (repair_asked options.now) chosen.now.geometry stamp.now image (Some found)) result) }
    ensures leaves { ForSome (D.holds disk.old) (λ image. RepairLeaves stamp.now image (D.holds disk.new) result) }
    ensures stops { D.tells_stops disk.old → ForSome (D.holds disk.old) (λ image.
        (t : ℕ) (stopped : Image) → t ≤ D.moment disk.old → D.left_since disk.new t stopped → D.left_since disk.old t stopped ⊎ StopsBy stamp.now image result stopped) }
    ensures possible { CanCome (repair_asked options.now) result }
    ensures ends { Ends D.size D.holds D.faults D.write_faults D.writes D.tells_stops D.moment D.may_leave D.left_since disk.old disk.new result }
{
    if asks_rebuild(options, &found) {
        rebuild(rt, alloc, disk, chosen, evidence, stamp, gate)
    } else {
        drop(evidence);
        answer_kept(alloc, disk, options, chosen, found, stamp)
    }
}

/// Whether a volume in which this is found first is rebuilt.
fn asks_rebuild(options: &RepairOptions, found: &Finding) -> bool
    ensures { result ≡ (not options.now.check && not (is_backup found.now)) }
{
    !options.check && !is_backup(found)
}

/// What comes of a volume that is not rebuilt: it is only checked, or a backup superblock is found.
fn answer_kept<D: Disk>(
    alloc: Global,
    disk: &mut D,
    options: &RepairOptions,
    chosen: &Elected,
    found: Finding,
    stamp: &Stamp,
) -> Outcome
    requires kept { (not options.now.check && not (is_backup found)) ≡ false }
    requires sector { length chosen.now.sector ≡ 512 }
    requires stated { volume_of chosen.now.geometry ≡ stated_volume chosen.now.sector }
    requires inside { chosen.now.geometry.dblocks ≤ D.size disk.old }
    requires elects { ForSome (D.holds disk.old) (λ image. elected image ≡ Ok (vote_of chosen.now)) }
    requires admitted { ForSome (D.holds disk.old) (λ image. turned_away (repair_asked options.now) (volume_of chosen.now.geometry) image ≡ None) }
    requires found { ForSome (D.holds disk.old) (λ image. Some found ≡ finding broken_law chosen.now.geometry image) }
    ensures due { ForSome (D.holds disk.old) (λ image. IsOwed (IsDueFound (repair_asked options.now) chosen.now.geometry stamp.now image (Some found)) result) }
    ensures leaves { ForSome (D.holds disk.old) (λ image. RepairLeaves stamp.now image (D.holds disk.new) result) }
    ensures stops { D.tells_stops disk.old → ForSome (D.holds disk.old) (λ image.
        (t : ℕ) (stopped : Image) → t ≤ D.moment disk.old → D.left_since disk.new t stopped → D.left_since disk.old t stopped ⊎ StopsBy stamp.now image result stopped) }
    ensures possible { CanCome (repair_asked options.now) result }
    ensures ends { Ends D.size D.holds D.faults D.write_faults D.writes D.tells_stops D.moment D.may_leave D.left_since disk.old disk.new result }
{
    if options.check {
        return Outcome::Damaged(found);
    }
    repair_backups(alloc, disk, &chosen.geometry, &chosen.sector)
}

/// Whether what is found is a backup superblock that does not agree.
fn is_backup(found: &Finding) -> bool
    ensures { result ≡ is_backup found.now }
{
    matches!(found, Finding::Part { part: 10, .. })
}

/// Writes anew the backups that don't agree with the primary superblock.
fn repair_backups<D: Disk>(
    alloc: Global,
    disk: &mut D,
    geometry: &Geometry,
    primary: &[u8],
) -> Outcome
    requires sector { length primary.now ≡ 512 }
    requires stated { volume_of geometry.now ≡ stated_volume primary.now }
    requires inside { geometry.now.dblocks ≤ D.size disk.old }
    ensures due { ForSome (D.holds disk.old) (λ image.
        IsOwed (λ due. due ≡ Repaired (Backups (length (steps_from primary.now image 1 (geometry.now.agcount - 1))))) result) }
    ensures leaves { ForSome (D.holds disk.old) (λ image.
        LeavesOf (steps_from primary.now image 1 (geometry.now.agcount - 1)) image (D.holds disk.new) result) }
    ensures stops { D.tells_stops disk.old → ForSome (D.holds disk.old) (λ image.
        (t : ℕ) (stopped : Image) → t ≤ D.moment disk.old → D.left_since disk.new t stopped → D.left_since disk.old t stopped ⊎ StopsOf (steps_from primary.now image 1 (geometry.now.agcount - 1)) image result stopped) }
    ensures possible { (o : Asked) → o.check ≡ false → CanCome o result }
    ensures ends { Ends D.size D.holds D.faults D.write_faults D.writes D.tells_stops D.moment D.may_leave D.left_since disk.old disk.new result }
{
    let plan = match plan_backups(alloc, disk, geometry, primary) {
        Ok(plan) => plan,
        Err(MendFault::ReadFault) => return Outcome::ReadFault {
            faults: disk.faults(),
        },
        Err(MendFault::NoMemory) => return Outcome::NoMemory,
    };
    match write_parts(disk, &plan.bank, &[], plan.rows.as_slice()) {
        Ok(()) => Outcome::Repaired(Summary::Backups {
            count: plan.rows.len() as u64,
        }),
        Err(written) => Outcome::WriteFault { written },
    }
}
