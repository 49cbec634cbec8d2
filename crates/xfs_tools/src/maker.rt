//! mkfs.xfs: the volume that words ask for, and the line that tells of it.

ghost use Rattle.std.specs.Prelude.{◌≡◌, ◌≤◌, ◌&&◌, Bool, Result, Ok, None, false, length};
ghost use Rattle.std.specs.Option.{ForSome};
ghost use Rattle.xfs_disk.specs.declared.failed.Failed.{Failed};
ghost use Rattle.xfs_mkfs.specs.Roots.{HasInodeRoot};
ghost use Rattle.xfs_options.specs.MakeWords.{make_of};
ghost use Rattle.xfs_tools.specs.Answers.{status_of};
ghost use Rattle.xfs_tools.specs.Generating.{IsGenerated, files_asked, made_in};
ghost use Rattle.xfs_tools.specs.Making.{IsMake, IsMaking, IsOfMaking, IsToldUnless, is_made, made_answer, make_refusal};
ghost use Rattle.xfs_tools.specs.declared.answer.Answer.{Answer};

use crate::answer::{Answer, Status};
use crate::generating::show_made;
use crate::texts::{end_with, output_fault, tell};
use std::alloc::Global;
use std::marker::Sync;
use std::thread::Threads;
use xfs_disk::{Disk, Failed, Gate, Library, Sink, Stamp, Word};
use xfs_mkfs::{MakeOutcome, make};
use xfs_options::{MakeFault, MakeLine, read_make_words};

/// Makes the volume that the words behind `mkfs.xfs` ask for. The line of its answer goes to `out` where it was made, else to
/// `err`. A volume with generated files is then damaged and repaired.
pub(crate) fn run_maker<R: Threads + Sync, D: Disk, L: Library, O: Sink, E: Sink, G: Gate>(
    rt: &R,
    alloc: Global,
    words: &[Word],
    disk: &mut D,
    files: &mut L,
    out: &mut O,
    err: &mut E,
    stamp: &Stamp,
    gate: &G,
) -> Status
    ensures made { files_asked (make_of words.now) ≡ None → (answer : Answer) × (quiet : Bool) × (put : Result (Unit {0}) Failed)
        × IsMaking (make_of words.now) ((disk.new ≡ disk.old) × (files.new ≡ files.old)) (IsMake D.holds D.size D.faults D.write_faults D.reads D.writes D.tells_stops D.moment D.may_leave D.left_since L.files L.faults stamp.now disk.old disk.new files.old files.new) answer quiet
        × IsToldUnless (quiet && is_made answer) O.took O.faults E.took E.faults out.old out.new err.old err.new answer put
        × (result ≡ status_of false answer put) }
    ensures generated { ForSome (files_asked (make_of words.now)) (IsGenerated D.holds D.size D.faults D.write_faults D.reads D.writes D.tells_stops D.moment D.may_leave D.left_since L.files L.faults O.took O.faults E.took E.faults stamp.now (make_of words.now) disk.old disk.new files.old files.new out.old out.new err.old err.new result) }
    ensures size { D.size disk.new ≡ D.size disk.old }
    ensures files { L.files files.new ≡ L.files files.old }
{
    match read_make_words(alloc, words) {
        Ok(line) => {
            let status = run_line(rt, alloc, &line, disk, files, out, err, stamp, gate);
            drop(line);
            status
        }
        Err(fault) => end_with(out, err, make_refusal(fault)),
    }
}

/// The answer where words are refused, or could not be read.
fn make_refusal(fault: MakeFault) -> Answer
    ensures { result ≡ make_refusal fault }
{
    match fault {
        MakeFault::Offends(word) => Answer::Usage { word },
        MakeFault::BadOption { word, item } => Answer::BadOption { word, item },
        MakeFault::NoMemory => Answer::NoMemory,
    }
}

/// The same where the words are a command line.
fn run_line<R: Threads + Sync, D: Disk, L: Library, O: Sink, E: Sink, G: Gate>(
    rt: &R,
    alloc: Global,
    line: &MakeLine,
    disk: &mut D,
    files: &mut L,
    out: &mut O,
    err: &mut E,
    stamp: &Stamp,
    gate: &G,
) -> Status
    requires label { length line.now.options.label ≤ 12 }
    requires generate { ForSome line.now.options.generate (λ n. n ≤ 100000) }
    ensures made { line.now.options.generate ≡ None → (answer : Answer) × (quiet : Bool) × (put : Result (Unit {0}) Failed)
        × IsMaking (Ok line.now) ((disk.new ≡ disk.old) × (files.new ≡ files.old)) (IsMake D.holds D.size D.faults D.write_faults D.reads D.writes D.tells_stops D.moment D.may_leave D.left_since L.files L.faults stamp.now disk.old disk.new files.old files.new) answer quiet
        × IsToldUnless (quiet && is_made answer) O.took O.faults E.took E.faults out.old out.new err.old err.new answer put
        × (result ≡ status_of false answer put) }
    ensures generated { ForSome line.now.options.generate (IsGenerated D.holds D.size D.faults D.write_faults D.reads D.writes D.tells_stops D.moment D.may_leave D.left_since L.files L.faults O.took O.faults E.took E.faults stamp.now (Ok line.now) disk.old disk.new files.old files.new out.old out.new err.old err.new result) }
    ensures size { D.size disk.new ≡ D.size disk.old }
    ensures files { L.files files.new ≡ L.files files.old }
{
    let answer = make_line(rt, alloc, line, disk, files, stamp);
    match line.options.generate {
        Some(count) => show_made(
            rt, alloc, disk, out, err, stamp, gate, line.quiet, answer, count,
        ),
        None => end_making(out, err, line.quiet, answer),
    }
}

/// Makes the volume that a command line asks for.
fn make_line<R: Threads + Sync, D: Disk, L: Library>(
    rt: &R,
    alloc: Global,
    line: &MakeLine,
    disk: &mut D,
    files: &mut L,
    stamp: &Stamp,
) -> Answer
    requires label { length line.now.options.label ≤ 12 }
    requires generate { ForSome line.now.options.generate (λ n. n ≤ 100000) }
    ensures made { IsOfMaking line.now (IsMake D.holds D.size D.faults D.write_faults D.reads D.writes D.tells_stops D.moment D.may_leave D.left_since L.files L.faults stamp.now disk.old disk.new files.old files.new) result line.now.quiet }
    // of a disk that tells what it holds, the root of the inode tree of group 0 is a block
    ensures inside { ForSome (D.holds disk.old) (λ image. ForSome (made_in result) (λ made. ForSome (D.holds disk.new) (HasInodeRoot (D.size disk.new)))) }
    ensures unasked { ForSome line.now.options.generate (λ n. files.new ≡ files.old) }
    ensures tells { D.tells_stops disk.old → D.tells_stops disk.new }
    ensures later { D.tells_stops disk.old → D.moment disk.old ≤ D.moment disk.new }
    ensures size { D.size disk.new ≡ D.size disk.old }
    ensures files { L.files files.new ≡ L.files files.old }
{
    made_answer(make(rt, alloc, disk, files, &line.options, stamp))
}

/// The answer that an outcome of making a volume is.
fn made_answer(outcome: MakeOutcome) -> Answer
    ensures { result ≡ made_answer outcome }
{
    match outcome {
        MakeOutcome::Made(summary) => Answer::Made(summary),
        MakeOutcome::TooSmall { what } => Answer::TooSmall { what },
        MakeOutcome::HasVolume => Answer::HasVolume,
        MakeOutcome::BadProto { line, reason } => Answer::BadProto { line, reason },
        MakeOutcome::NoFile { line } => Answer::NoFile { line },
        MakeOutcome::LibraryFault => Answer::LibraryFault,
        MakeOutcome::NoRoom(place) => Answer::NoRoom(place),
        MakeOutcome::ReadFault { faults } => Answer::ReadFault { faults },
        MakeOutcome::WriteFault { written } => Answer::WriteFault { written },
        MakeOutcome::NoMemory => Answer::NoMemory,
    }
}

/// Puts the line of the answer, and ends the call with its status.
fn end_making<O: Sink, E: Sink>(out: &mut O, err: &mut E, quiet: bool, answer: Answer) -> Status
    ensures { (put : Result (Unit {0}) Failed)
        × IsToldUnless (quiet && is_made answer) O.took O.faults E.took E.faults out.old out.new err.old err.new answer put
        × (result ≡ status_of false answer put) }
{
    match tell_making(out, err, quiet, answer) {
        Ok(()) => Status {
            code: answer.code(false),
            answer,
            finished: 0,
        },
        Err(Failed) => output_fault(),
    }
}

/// Puts the line of the answer, but not that of a volume that was made where it is to be left out.
fn tell_making<O: Sink, E: Sink>(
    out: &mut O,
    err: &mut E,
    quiet: bool,
    answer: Answer,
) -> Result<(), Failed>
    ensures { IsToldUnless (quiet && is_made answer) O.took O.faults E.took E.faults out.old out.new err.old err.new answer result }
{
    if quiet && is_made(answer) {
        return Ok(());
    }
    tell(out, err, answer)
}

/// Whether the answer tells of a volume that was made.
fn is_made(answer: Answer) -> bool
    ensures { result ≡ is_made answer }
{
    matches!(answer, Answer::Made(_))
}
