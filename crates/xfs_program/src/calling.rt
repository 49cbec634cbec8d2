//! A call of the program: the image, the tools and the status with which it ends.

ghost use Rattle.std.specs.Prelude.{◌≡◌, Option};
ghost use Rattle.std.specs.Process.{exit_status};
ghost use Rattle.xfs_program.specs.Calling.{EndsWith, IsAnswered};
ghost use Rattle.xfs_system.specs.Opening.{IsTaken, image_word};
ghost use Rattle.xfs_tools.specs.declared.answer.Status.{Status};

use std::alloc::Global;
use std::io::Eprint;
use std::process::ExitCode;
use std::thread::Threads;
use xfs_disk::{Disk, Library, NoGate, Sink, Source, Stamp, Word};
use xfs_system::{Environment, Host, Purpose, take_image};
use xfs_tools::run;

/// Takes the image that the last word names, lets the tools do what the words say to it, and ends with their status; with 1 where
/// it may not be taken.
pub fn call<H: Host + Eprint + Threads + Sync, L: Library, S: Source, O: Sink, E: Sink>(
    host: &H,
    alloc: Global,
    words: &[Word],
    purpose: Purpose,
    stamp: &Stamp,
    environment: &mut Environment<L, S, O, E>,
) -> ExitCode
    ensures { (taken : Option H.Image)
        × IsTaken (H.opens host.now) (H.refuses host.now) (H.says_used host.now) H.is_none (image_word words.now) purpose taken
        × EndsWith (IsAnswered H.Image.holds H.Image.size H.Image.faults H.Image.write_faults H.Image.reads H.Image.writes H.Image.tells_stops H.Image.moment H.Image.may_leave H.Image.left_since L.files L.faults
        S.left S.faults O.took O.faults E.took E.faults environment.old environment.new stamp.now words.now) (environment.new ≡ environment.old) taken (exit_status result) }
{
    match take_image(host, words, purpose) {
        Some(mut image) => answer(host, alloc, words, &mut image, stamp, environment),
        None => ExitCode::from(1),
    }
}

/// Lets the tools do what the words say to a disk, and ends with their status.
fn answer<R: Threads + Sync, D: Disk, L: Library, S: Source, O: Sink, E: Sink>(
    rt: &R,
    alloc: Global,
    words: &[Word],
    disk: &mut D,
    stamp: &Stamp,
    environment: &mut Environment<L, S, O, E>,
) -> ExitCode
    ensures { (status : Status)
        × IsAnswered D.holds D.size D.faults D.write_faults D.reads D.writes D.tells_stops D.moment D.may_leave D.left_since L.files L.faults
        S.left S.faults O.took O.faults E.took E.faults environment.old environment.new stamp.now words.now disk.old disk.new status
        × (exit_status result ≡ status.code) }
{
    let status = run(
        rt,
        alloc,
        words,
        disk,
        &mut environment.files,
        &mut environment.input,
        &mut environment.out,
        &mut environment.err,
        stamp,
        &NoGate,
    );
    ExitCode::from(status.code)
}
