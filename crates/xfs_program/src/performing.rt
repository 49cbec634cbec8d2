//! The whole program over a host.

ghost use Rattle.std.specs.Prelude.{◌≡◌, ◌⊎◌, IfOk, OnErr};
ghost use Rattle.std.specs.Process.{exit_status};
ghost use Rattle.xfs_program.specs.Calling.{IsAnswered};
ghost use Rattle.xfs_program.specs.Performing.{IsPerformed};

use crate::calling::call;
use crate::purpose::purpose_of;
use std::alloc::Global;
use std::io::Eprint;
use std::process::ExitCode;
use std::thread::Threads;
use xfs_disk::{Library, Sink, Source};
use xfs_system::{Environment, Host, Purpose, make_stamp};

/// What is lacking for a call.
#[derive(Clone, Copy)]
enum Lack {
    Memory,
    RandomNumbers,
}

/// Makes the call that the host's words ask for, and ends with its status. Where memory or random numbers lack for it, that is told, and
/// the status is 1.
pub fn perform<H: Host + Eprint + Threads + Sync, L: Library, S: Source, O: Sink, E: Sink>(
    host: &H,
    alloc: Global,
    environment: &mut Environment<L, S, O, E>,
) -> ExitCode
    ensures { ((environment.new ≡ environment.old) × (exit_status result ≡ 1))
        ⊎ IsPerformed (H.gives_words host.now) (H.tells_time host.now) (H.draws host.now) (H.lacks_streams host.now)
        (H.opens host.now) (H.refuses host.now) (H.says_used host.now) H.is_none
        (IsAnswered H.Image.holds H.Image.size H.Image.faults H.Image.write_faults H.Image.reads H.Image.writes H.Image.tells_stops H.Image.moment H.Image.may_leave H.Image.left_since L.files L.faults
        S.left S.faults O.took O.faults E.took E.faults environment.old environment.new) (environment.new ≡ environment.old) (exit_status result) }
{
    match attempt(host, alloc, environment) {
        Ok(code) => code,
        Err(lack) => {
            tell(host, lack);
            ExitCode::from(1)
        }
    }
}

/// Tells what is lacking.
fn tell(host: &impl Eprint, lack: Lack) {
    let _ = match lack {
        Lack::Memory => eprintln!(host; "xfs: no memory"),
        Lack::RandomNumbers => eprintln!(host; "xfs: no random numbers"),
    };
}

/// The same, where nothing lacks.
fn attempt<H: Host + Eprint + Threads + Sync, L: Library, S: Source, O: Sink, E: Sink>(
    host: &H,
    alloc: Global,
    environment: &mut Environment<L, S, O, E>,
) -> Result<ExitCode, Lack>
    ensures performed { IfOk result (λ code.
        IsPerformed (H.gives_words host.now) (H.tells_time host.now) (H.draws host.now) (H.lacks_streams host.now)
        (H.opens host.now) (H.refuses host.now) (H.says_used host.now) H.is_none
        (IsAnswered H.Image.holds H.Image.size H.Image.faults H.Image.write_faults H.Image.reads H.Image.writes H.Image.tells_stops H.Image.moment H.Image.may_leave H.Image.left_since L.files L.faults
        S.left S.faults O.took O.faults E.took E.faults environment.old environment.new) (environment.new ≡ environment.old) (exit_status code)) }
    ensures lacking { OnErr result (environment.new ≡ environment.old) }
{
    let Ok(words) = host.words(alloc) else {
        return Err(Lack::Memory);
    };
    let Ok(stamp) = make_stamp(host) else {
        return Err(Lack::RandomNumbers);
    };
    let Ok(purpose) = purpose_of(alloc, &words) else {
        return Err(Lack::Memory);
    };
    match host.hold_streams() {
        Ok(_held) => Ok(call(host, alloc, &words, purpose, &stamp, environment)),
        Err(_) => Ok(call(host, alloc, &words, Purpose::Nothing, &stamp, environment)),
    }
}
