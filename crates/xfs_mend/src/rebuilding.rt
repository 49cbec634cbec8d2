//! The rebuild of a volume.

ghost use Rattle.std.specs.Prelude.{◌≡◌, ◌<◌, ◌≤◌, ◌⊎◌, ℕ, false};
ghost use Rattle.std.specs.Option.{ForSome};
ghost use Rattle.xfs_disk.specs.Blocks.{Image};
ghost use Rattle.xfs_geom.specs.Volumes.{volume_of, stated_volume};
ghost use Rattle.xfs_geom.specs.Writing.{IsAcceptedSector};
ghost use Rattle.xfs_scan.specs.Evidence.{IsEvidence};
ghost use Rattle.xfs_rename.specs.xfs_rebuild.Rebuilds.{CanBeWritten, HasNamesDue};
ghost use Rattle.xfs_mend.specs.Asked.{Asked};
ghost use Rattle.xfs_mend.specs.Due.{CanCome, IsOwed};
ghost use Rattle.xfs_mend.specs.Private.Ending.{Ends};
ghost use Rattle.xfs_mend.specs.Private.Rebuilds.{IsDueRenaming, IsRenamedPlan, LeavesAnew, LeavesOfRebuilt, StopsAnew, StopsOfRebuilt};
ghost use Rattle.xfs_mend.specs.Rebuilding.{IsDueRebuild, IsRepairPlan};

use crate::outcome::{Outcome, Summary};
use std::alloc::Global;
use std::marker::Brand;
use std::sync::ledger::{Blank, Ledger};
use std::thread::Threads;
use xfs_collections::Steps;
use xfs_disk::{Disk, Gate, Stamp};
use xfs_geom::Elected;
use xfs_rename::{BoxedNames, RebuildFault, Rebuilt, Renamed, plan_names, plan_rebuild};
use xfs_scan::Evidence;
use xfs_writing::write_parts;

/// Rebuilds a volume round what can be kept of it: the blocks that differ are planned and then written, fresh ones before those in
/// place. Where a name or a directory has to change they are planned anew by all names that there are to be.
pub(crate) fn rebuild<R: Threads + Sync, D: Disk, G: Gate>(
    rt: &R,
    alloc: Global,
    disk: &mut D,
    chosen: &Elected,
    evidence: Evidence,
    stamp: &Stamp,
    gate: &G,
) -> Outcome
    requires accepted { IsAcceptedSector chosen.now.sector }
    requires stated { volume_of chosen.now.geometry ≡ stated_volume chosen.now.sector }
    requires inside { chosen.now.geometry.dblocks ≤ D.size disk.old }
    requires evidence { ForSome (D.holds disk.old) (λ image. IsEvidence chosen.now.geometry image evidence) }
    ensures due { ForSome (D.holds disk.old) (λ image. IsOwed (IsDueRebuild chosen.now.geometry stamp.now image) result) }
    ensures leaves { ForSome (D.holds disk.old) (λ image.
        LeavesAnew (IsRepairPlan chosen.now.geometry chosen.now.sector stamp.now image evidence) image (D.holds disk.new) result) }
    ensures stops { D.tells_stops disk.old → ForSome (D.holds disk.old) (λ image.
        (t : ℕ) (stopped : Image) → t ≤ D.moment disk.old → D.left_since disk.new t stopped
        → D.left_since disk.old t stopped ⊎ StopsAnew (IsRepairPlan chosen.now.geometry chosen.now.sector stamp.now image evidence) image result stopped) }
    ensures possible { (o : Asked) → o.check ≡ false → CanCome o result }
    ensures ends { Ends D.size D.holds D.faults D.write_faults D.writes D.tells_stops D.moment D.may_leave D.left_since disk.old disk.new result }
{
    rebuild_counted::<R, D, G, Brand>(
        rt,
        alloc,
        disk,
        chosen,
        evidence,
        stamp,
        gate,
        Blank::new(1),
    )
}

/// The same, where steps are counted in the ledger of a blank.
fn rebuild_counted<R: Threads + Sync, D: Disk, G: Gate, L: Ledger>(
    rt: &R,
    alloc: Global,
    disk: &mut D,
    chosen: &Elected,
    evidence: Evidence,
    stamp: &Stamp,
    gate: &G,
    blank: Blank,
) -> Outcome
    requires name { blank.name ≡ L.name }
    requires parts { blank.parts ≡ L.parts }
    requires some { 0 < blank.parts }
    requires accepted { IsAcceptedSector chosen.now.sector }
    requires stated { volume_of chosen.now.geometry ≡ stated_volume chosen.now.sector }
    requires inside { chosen.now.geometry.dblocks ≤ D.size disk.old }
    requires evidence { ForSome (D.holds disk.old) (λ image. IsEvidence chosen.now.geometry image evidence) }
    ensures due { ForSome (D.holds disk.old) (λ image. IsOwed (IsDueRebuild chosen.now.geometry stamp.now image) result) }
    ensures leaves { ForSome (D.holds disk.old) (λ image.
        LeavesAnew (IsRepairPlan chosen.now.geometry chosen.now.sector stamp.now image evidence) image (D.holds disk.new) result) }
    ensures stops { D.tells_stops disk.old → ForSome (D.holds disk.old) (λ image.
        (t : ℕ) (stopped : Image) → t ≤ D.moment disk.old → D.left_since disk.new t stopped
        → D.left_since disk.old t stopped ⊎ StopsAnew (IsRepairPlan chosen.now.geometry chosen.now.sector stamp.now image evidence) image result stopped) }
    ensures possible { (o : Asked) → o.check ≡ false → CanCome o result }
    ensures ends { Ends D.size D.holds D.faults D.write_faults D.writes D.tells_stops D.moment D.may_leave D.left_since disk.old disk.new result }
{
    let mut steps = Steps::<L>::from_blank(blank);
    let rebuilt = match plan_rebuild(rt, alloc, disk, chosen, evidence, stamp, gate, &mut steps) {
        Ok(rebuilt) => rebuilt,
        Err(RebuildFault::Names(due)) => return rename(
            rt, alloc, disk, chosen, due, stamp, gate, &mut steps,
        ),
        Err(RebuildFault::NoRoom(what)) => return Outcome::NoRoom(what),
        Err(RebuildFault::ReadFault) => return Outcome::ReadFault {
            faults: disk.faults(),
        },
        Err(RebuildFault::NoMemory) => return Outcome::NoMemory,
    };
    write_rebuilt(disk, rebuilt, 0)
}

/// Rebuilds a volume in which a name or a directory has to change, by what is known of it. `plan_names` never says again that names
/// have to change; that case stands with want of memory.
fn rename<R: Threads + Sync, D: Disk, G: Gate, L: Ledger>(
    rt: &R,
    alloc: Global,
    disk: &mut D,
    chosen: &Elected,
    due: BoxedNames,
    stamp: &Stamp,
    gate: &G,
    steps: &mut Steps<L>,
) -> Outcome
    requires accepted { IsAcceptedSector chosen.now.sector }
    requires stated { volume_of chosen.now.geometry ≡ stated_volume chosen.now.sector }
    requires inside { chosen.now.geometry.dblocks ≤ D.size disk.old }
    requires due { HasNamesDue chosen.now.geometry stamp.now due }
    ensures due { ForSome (D.holds disk.old) (λ image. IsOwed (IsDueRenaming chosen.now.geometry due) result) }
    ensures leaves { ForSome (D.holds disk.old) (λ image.
        LeavesAnew (IsRenamedPlan chosen.now.geometry chosen.now.sector stamp.now image due) image (D.holds disk.new) result) }
    ensures stops { D.tells_stops disk.old → ForSome (D.holds disk.old) (λ image.
        (t : ℕ) (stopped : Image) → t ≤ D.moment disk.old → D.left_since disk.new t stopped
        → D.left_since disk.old t stopped ⊎ StopsAnew (IsRenamedPlan chosen.now.geometry chosen.now.sector stamp.now image due) image result stopped) }
    ensures possible { (o : Asked) → o.check ≡ false → CanCome o result }
    ensures ends { Ends D.size D.holds D.faults D.write_faults D.writes D.tells_stops D.moment D.may_leave D.left_since disk.old disk.new result }
{
    let planned = plan_names(rt, alloc, disk, chosen, due, stamp, gate, steps);
    match planned {
        Ok(Renamed { rebuilt, orphans }) => write_rebuilt(disk, rebuilt, orphans),
        Err(RebuildFault::NoRoom(what)) => {
            drop(planned);
            Outcome::NoRoom(what)
        }
        Err(RebuildFault::ReadFault) => {
            drop(planned);
            Outcome::ReadFault {
                faults: disk.faults(),
            }
        }
        Err(RebuildFault::Names(_) | RebuildFault::NoMemory) => {
            drop(planned);
            Outcome::NoMemory
        }
    }
}

/// Writes what is planned.
fn write_rebuilt<D: Disk>(disk: &mut D, rebuilt: Rebuilt, orphans: u64) -> Outcome
    requires writable { CanBeWritten (D.size disk.old) rebuilt }
    ensures leaves { ForSome (D.holds disk.old) (λ image. LeavesOfRebuilt rebuilt orphans image (D.holds disk.new) result) }
    ensures stops { D.tells_stops disk.old → ForSome (D.holds disk.old) (λ image.
        (t : ℕ) (stopped : Image) → t ≤ D.moment disk.old → D.left_since disk.new t stopped
        → D.left_since disk.old t stopped ⊎ StopsOfRebuilt rebuilt image result stopped) }
    ensures possible { (o : Asked) → o.check ≡ false → CanCome o result }
    ensures ends { Ends D.size D.holds D.faults D.write_faults D.writes D.tells_stops D.moment D.may_leave D.left_since disk.old disk.new result }
{
    let Rebuilt {
        bank,
        fresh,
        in_place,
        kept,
        cleared,
    } = rebuilt;
    let first = fresh.as_slice();
    let last = in_place.as_slice();
    match write_parts(disk, &bank, first, last) {
        Ok(()) => Outcome::Repaired(Summary::Rebuilt {
            blocks: first.len() as u64 + last.len() as u64,
            kept,
            cleared,
            orphans,
        }),
        Err(written) => Outcome::WriteFault { written },
    }
}
