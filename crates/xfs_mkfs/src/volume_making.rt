//! Makes a volume.

ghost use Rattle.std.specs.Prelude.{◌≡◌, ◌≤◌, ◌⊎◌, ℕ, length};
ghost use Rattle.std.specs.Option.{ForSome};
ghost use Rattle.xfs_disk.specs.Blocks.{Image};
ghost use Rattle.xfs_disk.specs.Reads.{OnlyReads};
ghost use Rattle.xfs_mkfs.specs.Counts.{CountsBlocks, CountsReads, IsUnwritten};
ghost use Rattle.xfs_mkfs.specs.Outcome.{IsMakingCause, IsDueMake, MakeLeaves, put_outcome, summary_of};
ghost use Rattle.xfs_mkfs.specs.Stops.{IsDurableMake, StopLeaves};

use crate::outcome::{MadeSummary, MakeOutcome};
use crate::preparing::prepare;
use crate::volume::{PutFault, put_plan};
use std::alloc::Global;
use std::marker::Sync;
use std::thread::Threads;
use xfs_disk::{Disk, Library, Stamp};
use xfs_geom::Geometry;
use xfs_options::MakeOptions;

/// Makes a volume on a disk, with generated files, with those that a protofile of the library says, or with none but its root.
/// Its geometry is what is asked or follows from the disk's blocks. Its planned blocks are written in ascending order, but block 0 last, with
/// a sync before all, one before block 0 and one behind it; all other blocks stay. Nothing is written, and no sync asked for,
/// before an answer other than `Made` and `WriteFault`.
///
/// A label has at most 12 bytes. `TooSmall` of the first bound that is broken, before anything is read but the disk's size;
/// `HasVolume` where a mark stands on the disk of a volume, another file system or a partition table, unless it is to be
/// written over; `NoFile` of line 0 where the library lacks the protofile, `BadProto` where that is none, `NoFile` of the first
/// line whose file the library lacks; `NoRoom` of a chunk, of the first directory or file, or of the first group without room
/// for its trees; `ReadFault`, `WriteFault` and `LibraryFault` only where the count of the disk or the library rose; `NoMemory`
/// where memory is wanting. Up to 100000 files are generated, and then the library is not asked.
pub fn make<R: Threads + Sync, D: Disk, L: Library>(
    rt: &R,
    alloc: Global,
    disk: &mut D,
    files: &mut L,
    options: &MakeOptions,
    stamp: &Stamp,
) -> MakeOutcome
    requires label { length options.now.label ≤ 12 }
    requires generate { ForSome options.now.generate (λ n. n ≤ 100000) }
    ensures due { ForSome (D.holds disk.old) (λ image. IsDueMake options.now stamp.now (L.files files.old) (D.size disk.old) image result) }
    ensures leaves { ForSome (D.holds disk.old) (λ image. MakeLeaves options.now stamp.now (L.files files.old) (D.size disk.old) image (D.holds disk.new) result) }
    ensures cause { IsMakingCause (D.faults disk.old) (D.faults disk.new) (D.write_faults disk.old) (D.write_faults disk.new) (L.faults files.old) (L.faults files.new) result }
    // all planned blocks were written, or just as many as a write fault tells, or none
    ensures counts { CountsBlocks options.now stamp.now (L.files files.old) (D.size disk.old) (D.writes disk.old) (D.writes disk.new) result }
    // the four blocks that have the marks are read, each once, and not where they are written over anyway
    ensures reads { CountsReads options.now.force (D.reads disk.old) (D.reads disk.new) result }
    // nothing is written and no sync asked for, unless the volume was made or a write or a sync failed
    ensures unwritten { IsUnwritten result → OnlyReads D.size D.holds D.write_faults D.writes D.tells_stops D.moment D.may_leave D.left_since disk.old disk.new }
    // a volume that was made is kept: a stop leaves just what the disk holds
    ensures kept { IsDurableMake (D.tells_stops disk.old) (D.holds disk.new) (D.may_leave disk.new) result }
    // a stop leaves what it might have left before, or blocks of the new volume, and block 0 as it was until all others are kept
    ensures stops { D.tells_stops disk.old → ForSome (D.holds disk.old) (λ image.
        (t : ℕ) (stopped : Image) → t ≤ D.moment disk.old → D.left_since disk.new t stopped
        → D.left_since disk.old t stopped ⊎ StopLeaves options.now stamp.now (L.files files.old) (D.size disk.old) image stopped result) }
    ensures size { D.size disk.new ≡ D.size disk.old }
    ensures faults { D.faults disk.old ≤ D.faults disk.new }
    ensures write_faults { D.write_faults disk.old ≤ D.write_faults disk.new }
    ensures later { D.tells_stops disk.old → D.moment disk.old ≤ D.moment disk.new }
    ensures tells { D.tells_stops disk.old → D.tells_stops disk.new }
    // the library is asked for files, and keeps them
    ensures files { L.files files.new ≡ L.files files.old }
    ensures library_faults { L.faults files.old ≤ L.faults files.new }
    // it is not asked where files are generated
    ensures unasked { ForSome options.now.generate (λ n. files.new ≡ files.old) }
{
    let volume = match prepare(rt, alloc, disk, files, options, stamp) {
        Ok(volume) => volume,
        Err(outcome) => return outcome,
    };
    match put_plan(alloc, disk, &volume.plan) {
        Ok(()) => {
            let summary = summary_of(&volume.geometry);
            drop(volume);
            MakeOutcome::Made(summary)
        }
        Err(fault) => {
            drop(volume);
            put_outcome(fault)
        }
    }
}

/// The answer where the blocks were not all written.
fn put_outcome(fault: PutFault) -> MakeOutcome
    ensures { result ≡ put_outcome fault }
{
    match fault {
        PutFault::NoMemory => MakeOutcome::NoMemory,
        PutFault::Failed { written } => MakeOutcome::WriteFault { written },
    }
}

/// What is told of a volume of this geometry.
fn summary_of(g: &Geometry) -> MadeSummary
    ensures { result ≡ summary_of g.now }
{
    MadeSummary {
        dblocks: g.dblocks,
        agcount: g.agcount,
        log: g.log,
        logblocks: g.logblocks,
        rootino: g.rootino,
        uuid: g.uuid,
    }
}
