//! xfs_db: the session that words ask for, and the line that tells how it ended.

ghost use Rattle.std.specs.Prelude.{◌≡◌, ℕ, Result};
ghost use Rattle.xfs_disk.specs.declared.failed.Failed.{Failed};
ghost use Rattle.xfs_options.specs.DebugWords.{debug_of, said};
ghost use Rattle.xfs_texts.specs.Lines.{PutsText};
ghost use Rattle.xfs_tools.specs.Debugging.{IsDebugged, IsOfSession, IsShelled, finished_of, line_refusal, session_answer, session_options, session_status};
ghost use Rattle.xfs_tools.specs.Texts.{text_of};
ghost use Rattle.xfs_tools.specs.declared.answer.Answer.{Answer};

use crate::answer::{Answer, Status};
use crate::texts::put_answer;
use std::alloc::Global;
use xfs_disk::{Disk, Failed, Sink, Source, Word};
use xfs_options::{DebugLine, LineFault, read_debug_words};
use xfs_shell::{ShellOptions, ShellOutcome, shell};
use xfs_volume::Records;

/// How a session ended.
#[derive(Clone, Copy)]
struct End {
    answer: Answer,
    /// How many commands were finished.
    finished: u64,
}

/// Runs the session that the words behind `xfs_db` ask for. Its commands print to `out`, the line of its answer goes to `err`.
pub(crate) fn run_debugger<D: Disk, S: Source, O: Sink, E: Sink>(
    alloc: Global,
    words: &[Word],
    disk: &mut D,
    input: &mut S,
    out: &mut O,
    err: &mut E,
) -> Status
    ensures ended { (answer : Answer) × (finished : ℕ) × (put : Result (Unit {0}) Failed)
        × IsDebugged (debug_of words.now) ((disk.new ≡ disk.old) × (input.new ≡ input.old) × (out.new ≡ out.old))
        (IsShelled D.holds D.size D.faults D.write_faults D.reads D.writes D.tells_stops D.moment D.may_leave D.left_since S.left S.faults O.took O.faults disk.old disk.new input.old input.new out.old out.new) (D.faults disk.new) answer finished
        × PutsText (E.took err.old) (E.took err.new) (E.faults err.old) (E.faults err.new) (text_of answer) put
        × (result ≡ session_status answer finished put) }
    ensures size { D.size disk.new ≡ D.size disk.old }
{
    let end = run_words(alloc, words, disk, input, out);
    match put_answer(err, end.answer) {
        Ok(()) => Status {
            code: end.answer.code(false),
            answer: end.answer,
            finished: end.finished,
        },
        Err(Failed) => Status {
            code: 1,
            answer: Answer::OutputFault,
            finished: end.finished,
        },
    }
}

/// Runs the session that the words behind `xfs_db` ask for.
fn run_words<D: Disk, S: Source, O: Sink>(
    alloc: Global,
    words: &[Word],
    disk: &mut D,
    input: &mut S,
    out: &mut O,
) -> End
    ensures ended { IsDebugged (debug_of words.now) ((disk.new ≡ disk.old) × (input.new ≡ input.old) × (out.new ≡ out.old))
        (IsShelled D.holds D.size D.faults D.write_faults D.reads D.writes D.tells_stops D.moment D.may_leave D.left_since S.left S.faults O.took O.faults disk.old disk.new input.old input.new out.old out.new) (D.faults disk.new) result.answer result.finished }
    ensures size { D.size disk.new ≡ D.size disk.old }
{
    match read_debug_words(alloc, words) {
        Ok(line) => run_session(alloc, &options_of(line), disk, input, out),
        Err(fault) => refused(fault),
    }
}

/// The end of a call whose words are refused, or could not be read.
fn refused(fault: LineFault) -> End
    ensures { result ≡ line_refusal fault }
{
    let answer = match fault {
        LineFault::Offends(word) => Answer::Usage { word },
        LineFault::NoMemory => Answer::NoMemory,
    };
    End {
        answer,
        finished: 0,
    }
}

/// What a session is asked for by a command line.
fn options_of(line: DebugLine) -> ShellOptions
    ensures { result ≡ session_options (said line) }
{
    ShellOptions {
        expert: line.expert,
        read_only: line.read_only,
        commands: Records::from_vec(line.commands),
    }
}

/// Runs a session.
fn run_session<D: Disk, S: Source, O: Sink>(
    alloc: Global,
    options: &ShellOptions,
    disk: &mut D,
    input: &mut S,
    out: &mut O,
) -> End
    ensures session { IsOfSession options.now (IsShelled D.holds D.size D.faults D.write_faults D.reads D.writes D.tells_stops D.moment D.may_leave D.left_since S.left S.faults O.took O.faults disk.old disk.new input.old input.new out.old out.new) (D.faults disk.new) result.answer result.finished }
    ensures size { D.size disk.new ≡ D.size disk.old }
{
    let outcome = shell(alloc, disk, input, out, options);
    End {
        answer: answer_of(outcome, disk.faults()),
        finished: finished_of(outcome),
    }
}

/// The answer that the outcome of a session is, where the disk has counted so many failed reads.
fn answer_of(outcome: ShellOutcome, faults: u64) -> Answer
    ensures { result ≡ session_answer faults outcome }
{
    match outcome {
        ShellOutcome::Done => Answer::Done,
        ShellOutcome::NoGeometry => Answer::NoGeometry,
        ShellOutcome::Unsupported { word, bits } => Answer::Unsupported { word, bits },
        ShellOutcome::ReadFault { .. } => Answer::ReadFault { faults },
        ShellOutcome::WriteFault { written, .. } => Answer::WriteFault { written },
        ShellOutcome::InputFault => Answer::InputFault,
        ShellOutcome::InputLong => Answer::InputLong,
        ShellOutcome::OutputFault { .. } => Answer::OutputFault,
        ShellOutcome::NoMemory { .. } => Answer::NoMemory,
    }
}

/// How many commands were finished, where the outcome tells.
fn finished_of(outcome: ShellOutcome) -> u64
    ensures { result ≡ finished_of outcome }
{
    match outcome {
        ShellOutcome::ReadFault { finished }
        | ShellOutcome::WriteFault { finished, .. }
        | ShellOutcome::OutputFault { finished }
        | ShellOutcome::NoMemory { finished } => finished,
        ShellOutcome::Done
        | ShellOutcome::NoGeometry
        | ShellOutcome::Unsupported { .. }
        | ShellOutcome::InputFault
        | ShellOutcome::InputLong => 0,
    }
}
