//! Volumes that are not looked at further.

ghost use Rattle.std.specs.Prelude.{◌≡◌, ◌<◌, ◌≤◌, ◌&&◌, ℕ, Some, IfErr, IfOk};
ghost use Rattle.std.specs.Option.{ForSome};
ghost use Rattle.xfs_geom.specs.Volumes.{volume_of};
ghost use Rattle.xfs_disk.specs.Reads.{OnlyReads};
ghost use Rattle.xfs_image.specs.View.{log_of};
ghost use Rattle.xfs_scan.specs.Answers.{IsRefusal, IsScanCause};
ghost use Rattle.xfs_scan.specs.Refused.{refused};
ghost use Rattle.xfs_mend.specs.Asked.{repair_asked};
ghost use Rattle.xfs_mend.specs.Due.{asks_log, is_dirty, scan_refusal};
ghost use Rattle.xfs_backups.specs.Causes.{HasMendCause};
ghost use Rattle.xfs_mend.specs.Private.Refusing.{HasTurnCause, IsAdmitted, IsTurnCause, IsTurned, IsUnless, fault_outcome, first_of};

use crate::outcome::{Outcome, RepairOptions};
use std::alloc::Global;
use std::marker::Brand;
use std::sync::ledger::{Blank, Ledger};
use std::thread::Threads;
use xfs_backups::MendFault;
use xfs_collections::Steps;
use xfs_disk::{Disk, Gate};
use xfs_geom::Geometry;
use xfs_journal::{JournalFault, read_log};
use xfs_log::LogState;
use xfs_scan::{Evidence, ScanFault, gather};

/// What a repair of the volume goes by; or the answer, by the first cause for which it is not looked at further: its log is not clean, it
/// is too large, or a file is not supported.
pub(crate) fn admit<R: Threads + Sync, D: Disk, G: Gate>(
    rt: &R,
    alloc: Global,
    disk: &mut D,
    options: &RepairOptions,
    g: &Geometry,
    gate: &G,
) -> Result<Evidence, Outcome>
    requires inside { g.now.dblocks ≤ D.size disk.old }
    ensures admitted { IfOk result (λ e. ForSome (D.holds disk.old) (λ image. IsAdmitted (repair_asked options.now) g.now image e)) }
    ensures turned { IfErr result (λ outcome. ForSome (D.holds disk.old) (λ image. IsTurned (repair_asked options.now) g.now image outcome)) }
    ensures cause { HasTurnCause (D.faults disk.old) (D.faults disk.new) result }
    ensures disk { OnlyReads D.size D.holds D.write_faults D.writes D.tells_stops D.moment D.may_leave D.left_since disk.old disk.new }
{
    admit_counted::<R, D, G, Brand>(rt, alloc, disk, options, g, gate, Blank::new(1))
}

/// The same, where the blocks that are read are counted in the ledger of a blank.
fn admit_counted<R: Threads + Sync, D: Disk, G: Gate, L: Ledger>(
    rt: &R,
    alloc: Global,
    disk: &mut D,
    options: &RepairOptions,
    g: &Geometry,
    gate: &G,
    blank: Blank,
) -> Result<Evidence, Outcome>
    requires name { blank.name ≡ L.name }
    requires parts { blank.parts ≡ L.parts }
    requires some { 0 < blank.parts }
    requires inside { g.now.dblocks ≤ D.size disk.old }
    ensures admitted { IfOk result (λ e. ForSome (D.holds disk.old) (λ image. IsAdmitted (repair_asked options.now) g.now image e)) }
    ensures turned { IfErr result (λ outcome. ForSome (D.holds disk.old) (λ image. IsTurned (repair_asked options.now) g.now image outcome)) }
    ensures cause { HasTurnCause (D.faults disk.old) (D.faults disk.new) result }
    ensures disk { OnlyReads D.size D.holds D.write_faults D.writes D.tells_stops D.moment D.may_leave D.left_since disk.old disk.new }
{
    let mut steps = Steps::<L>::from_blank(blank);
    match gather(rt, alloc, g, disk, options.workers, gate, &mut steps) {
        Ok(evidence) => unless_asked(options, evidence),
        Err(fault) => Err(turn_away(alloc, disk, options, g, fault, &mut steps)),
    }
}

/// Whether a log that is not clean stands in the way.
fn asks_log(options: &RepairOptions) -> bool
    ensures { result ≡ asks_log (repair_asked options.now) }
{
    !options.check && !options.drop_log
}

/// Whether a log is not clean.
fn is_dirty(log: LogState) -> bool
    ensures { result ≡ is_dirty log }
{
    matches!(log, LogState::Dirty)
}

/// Whether the log of a volume stands in the way.
fn is_in_the_way(options: &RepairOptions, evidence: &Evidence) -> bool
    ensures { result ≡ (asks_log (repair_asked options.now) && is_dirty evidence.now.log) }
{
    asks_log(options) && is_dirty(evidence.log)
}

/// A volume that is neither too large nor has a file that is not supported.
fn unless_asked(options: &RepairOptions, evidence: Evidence) -> Result<Evidence, Outcome>
    ensures { IsUnless (asks_log (repair_asked options.now) && is_dirty evidence.log) evidence result }
{
    if is_in_the_way(options, &evidence) {
        drop(evidence);
        Err(Outcome::DirtyLog)
    } else {
        Ok(evidence)
    }
}

/// The answer to a fault where nothing was done but reads.
pub(crate) fn answer_fault<D: Disk>(disk: &D, fault: MendFault) -> Outcome
    ensures { result ≡ fault_outcome (D.faults disk.now) fault }
{
    match fault {
        MendFault::ReadFault => Outcome::ReadFault {
            faults: disk.faults(),
        },
        MendFault::NoMemory => Outcome::NoMemory,
    }
}

/// The answer where no evidence was gathered.
fn turn_away<D: Disk, L: Ledger>(
    alloc: Global,
    disk: &mut D,
    options: &RepairOptions,
    g: &Geometry,
    fault: ScanFault,
    steps: &mut Steps<L>,
) -> Outcome
    requires inside { g.now.dblocks ≤ D.size disk.old }
    requires refused { ForSome (D.holds disk.old) (λ image. IsRefusal (refused (volume_of g.now) image) fault) }
    ensures turned { ForSome (D.holds disk.old) (λ image. IsTurned (repair_asked options.now) g.now image result) }
    ensures cause { (before : ℕ) → IsScanCause before (D.faults disk.old) fault → IsTurnCause before (D.faults disk.new) result }
    ensures disk { OnlyReads D.size D.holds D.write_faults D.writes D.tells_stops D.moment D.may_leave D.left_since disk.old disk.new }
{
    match fault {
        ScanFault::ReadFault => Outcome::ReadFault {
            faults: disk.faults(),
        },
        ScanFault::NoMemory => Outcome::NoMemory,
        ScanFault::TooLarge { what, count } => unless_dirty(
            alloc,
            disk,
            options,
            g,
            Outcome::TooLarge { what, count },
            steps,
        ),
        ScanFault::UnsupportedFile { ino, what } => unless_dirty(
            alloc,
            disk,
            options,
            g,
            Outcome::UnsupportedFile { ino, what },
            steps,
        ),
    }
}

/// The answer to a volume that is refused; where its log stands in the way, that comes first.
fn unless_dirty<D: Disk, L: Ledger>(
    alloc: Global,
    disk: &mut D,
    options: &RepairOptions,
    g: &Geometry,
    refusal: Outcome,
    steps: &mut Steps<L>,
) -> Outcome
    requires inside { g.now.dblocks ≤ D.size disk.old }
    requires refused { ForSome (D.holds disk.old) (λ image. scan_refusal (refused (volume_of g.now) image) ≡ Some refusal) }
    requires quiet { (before now : ℕ) → before ≤ now → IsTurnCause before now refusal }
    ensures turned { ForSome (D.holds disk.old) (λ image. IsTurned (repair_asked options.now) g.now image result) }
    ensures cause { IsTurnCause (D.faults disk.old) (D.faults disk.new) result }
    ensures disk { OnlyReads D.size D.holds D.write_faults D.writes D.tells_stops D.moment D.may_leave D.left_since disk.old disk.new }
{
    match read_state(alloc, disk, options, g, steps) {
        Ok(stands) => first_of(stands, refusal),
        Err(fault) => answer_fault(disk, fault),
    }
}

/// The answer that comes first.
fn first_of(stands: bool, refusal: Outcome) -> Outcome
    ensures { result ≡ first_of stands refusal }
{
    if stands { Outcome::DirtyLog } else { refusal }
}

/// Whether the log of a volume stands in the way; it is read only where it might.
fn read_state<D: Disk, L: Ledger>(
    alloc: Global,
    disk: &mut D,
    options: &RepairOptions,
    g: &Geometry,
    steps: &mut Steps<L>,
) -> Result<bool, MendFault>
    requires inside { g.now.dblocks ≤ D.size disk.old }
    ensures stands { IfOk result (λ stands. ForSome (D.holds disk.old) (λ image. stands ≡ (asks_log (repair_asked options.now) && is_dirty (log_of (volume_of g.now) image)))) }
    ensures cause { HasMendCause (D.faults disk.old) (D.faults disk.new) result }
    ensures disk { OnlyReads D.size D.holds D.write_faults D.writes D.tells_stops D.moment D.may_leave D.left_since disk.old disk.new }
{
    if !asks_log(options) {
        return Ok(false);
    }
    match read_log(alloc, g, disk, steps) {
        Ok(log) => Ok(is_dirty(log)),
        Err(JournalFault::ReadFault) => Err(MendFault::ReadFault),
        Err(JournalFault::NoMemory) => Err(MendFault::NoMemory),
    }
}
