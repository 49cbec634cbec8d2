//! `mkfs.xfs -G`: a volume with generated files is damaged and repaired, and each step tells its line.

ghost use Rattle.std.specs.Prelude.{◌≡◌};
ghost use Rattle.xfs_tools.specs.Generating.{IsDamagedEnd, IsMarkedEnd, IsMendedEnd, IsShown, ShowsMade, made_in};

use crate::answer::{Answer, Status};
use crate::damaging::{damage, damage_answer};
use crate::texts::{end_with, output_fault, put_damaged, put_made_lines};
use std::alloc::Global;
use std::thread::Threads;
use xfs_disk::{Disk, Failed, Gate, Sink, Stamp};
use xfs_mend::{RepairOptions, repair};
use xfs_mkfs::MadeSummary;

/// How many workers a repair gets.
const WORKERS: u32 = 4;

/// Shows how a volume with so many generated files is repaired, where it was made. Else the line of the answer is put.
pub(crate) fn show_made<R: Threads + Sync, D: Disk, O: Sink, E: Sink, G: Gate>(
    rt: &R,
    alloc: Global,
    disk: &mut D,
    out: &mut O,
    err: &mut E,
    stamp: &Stamp,
    gate: &G,
    quiet: bool,
    answer: Answer,
    files: u32,
) -> Status
    ensures shown { ShowsMade D.holds D.size D.faults D.write_faults D.writes D.tells_stops D.moment D.may_leave D.left_since O.took O.faults E.took E.faults stamp.now disk.new out.new err.old err.new result disk.old out.old quiet files answer (made_in answer) }
    ensures size { D.size disk.new ≡ D.size disk.old }
{
    match made_in(answer) {
        Some(made) => show(rt, alloc, disk, out, err, stamp, gate, quiet, &made, files),
        None => end_with(out, err, answer),
    }
}

/// The volume that an answer tells of.
fn made_in(answer: Answer) -> Option<MadeSummary>
    ensures { result ≡ made_in answer }
{
    match answer {
        Answer::Made(made) => Some(made),
        _ => None,
    }
}

/// Puts the lines of the volume and of its files, damages the volume and repairs it.
fn show<R: Threads + Sync, D: Disk, O: Sink, E: Sink, G: Gate>(
    rt: &R,
    alloc: Global,
    disk: &mut D,
    out: &mut O,
    err: &mut E,
    stamp: &Stamp,
    gate: &G,
    quiet: bool,
    made: &MadeSummary,
    files: u32,
) -> Status
    ensures shown { IsShown D.holds D.size D.faults D.write_faults D.writes D.tells_stops D.moment D.may_leave D.left_since O.took O.faults E.took E.faults stamp.now disk.new out.new err.old err.new result disk.old out.old quiet made.now files }
    ensures size { D.size disk.new ≡ D.size disk.old }
{
    match put_made_lines(out, quiet, made, files) {
        Ok(()) => damage_and_mend(rt, alloc, disk, out, err, stamp, gate),
        Err(Failed) => output_fault(),
    }
}

/// Damages the volume and repairs it.
fn damage_and_mend<R: Threads + Sync, D: Disk, O: Sink, E: Sink, G: Gate>(
    rt: &R,
    alloc: Global,
    disk: &mut D,
    out: &mut O,
    err: &mut E,
    stamp: &Stamp,
    gate: &G,
) -> Status
    ensures shown { IsDamagedEnd D.holds D.size D.faults D.write_faults D.writes D.tells_stops D.moment D.may_leave D.left_since O.took O.faults E.took E.faults stamp.now disk.new out.new err.old err.new result disk.old out.old }
    ensures size { D.size disk.new ≡ D.size disk.old }
{
    match damage(alloc, disk) {
        Ok(place) => mark_and_mend(rt, alloc, disk, out, err, stamp, gate, place),
        Err(fault) => end_with(out, err, damage_answer(fault)),
    }
}

/// Puts the line of the block that was damaged, and repairs the volume.
fn mark_and_mend<R: Threads + Sync, D: Disk, O: Sink, E: Sink, G: Gate>(
    rt: &R,
    alloc: Global,
    disk: &mut D,
    out: &mut O,
    err: &mut E,
    stamp: &Stamp,
    gate: &G,
    place: u64,
) -> Status
    ensures shown { IsMarkedEnd D.holds D.size D.faults D.write_faults D.writes D.tells_stops D.moment D.may_leave D.left_since O.took O.faults E.took E.faults stamp.now disk.new out.new err.old err.new result disk.old out.old place }
    ensures size { D.size disk.new ≡ D.size disk.old }
{
    match put_damaged(out, place) {
        Ok(()) => mend(rt, alloc, disk, out, err, stamp, gate),
        Err(Failed) => output_fault(),
    }
}

/// Repairs the volume, and puts the line of that answer.
fn mend<R: Threads + Sync, D: Disk, O: Sink, E: Sink, G: Gate>(
    rt: &R,
    alloc: Global,
    disk: &mut D,
    out: &mut O,
    err: &mut E,
    stamp: &Stamp,
    gate: &G,
) -> Status
    ensures shown { IsMendedEnd D.holds D.size D.faults D.write_faults D.writes D.tells_stops D.moment D.may_leave D.left_since O.took O.faults E.took E.faults stamp.now disk.new out.new err.old err.new result disk.old out.old }
    ensures size { D.size disk.new ≡ D.size disk.old }
{
    let options = RepairOptions {
        check: false,
        drop_log: false,
        workers: WORKERS,
    };
    let outcome = repair(rt, alloc, disk, &options, stamp, gate);
    end_with(out, err, Answer::of_outcome(outcome))
}
