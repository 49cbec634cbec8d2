//! Lines that are run one after the other.

ghost use Rattle.std.specs.Prelude.{◌≡◌, ℕ, ◌<◌, ◌≤◌, ◌++◌, true, List, length, Some, IfOk};
ghost use Rattle.std.specs.Option.{ForSome};
ghost use Rattle.xfs_geom.specs.Volumes.{volume_of};
ghost use Rattle.xfs_commands.specs.Commands.{session_of, IsWithin};
ghost use Rattle.xfs_commands.specs.Cursors.{is_quit};
ghost use Rattle.xfs_shell.specs.Running.{attempts, block_at_place, image_after, is_quit_words, may_write, until_quit};
ghost use Rattle.xfs_shell.specs.LineParts.{line_parts};
ghost use Rattle.xfs_shell.specs.Sessions.{IsCommandOutcome};
ghost use Rattle.xfs_shell.specs.Steps.{stop_told, stop_of_line, IsStep};
ghost use Rattle.xfs_shell.specs.Stops.{HasPassed, Passes};
ghost use Rattle.xfs_shell.specs.Ends.{HasCounts, HasLineCause, IsHalted, LeavesLine, PrintsLine};
ghost use Rattle.xfs_shell.specs.Shells.{outcome_behind, stopped_outcome, HasSessionCause, IsEarly, IsOfLines, LeavesDisk, Prints, RunsOver};
ghost use Rattle.xfs_shell.specs.declared.line_parts.Cut.TheVariants as Cut;

use crate::line_parts::{Cut, parts};
use crate::outcomes::ShellOutcome;
use crate::session::{Leave, Stop, run_words};
use std::alloc::Global;
use xfs_commands::{Cursor, Verdict, word_at};
use xfs_disk::{Disk, Failed, NoMemory, Sink, Word};
use xfs_geom::Geometry;

/// Why a line was not run and put.
#[derive(Clone, Copy)]
pub(crate) enum LineEnd {
    Stopped(Stop),
    OutputFault,
}

impl LineEnd {
    /// The outcome of lines that ended so, of which so many were finished before.
    fn behind(self, finished: usize) -> ShellOutcome
        requires { finished < usize.MAX }
        ensures { result ≡ outcome_behind finished self }
    {
        match self {
            LineEnd::Stopped(stop) => stopped_outcome(stop, finished as u64),
            LineEnd::OutputFault => ShellOutcome::OutputFault {
                finished: finished as u64 + 1,
            },
        }
    }
}

/// The outcome of lines that were stopped behind so many commands.
fn stopped_outcome(stop: Stop, finished: u64) -> ShellOutcome
    ensures { result ≡ stopped_outcome stop finished }
{
    match stop {
        Stop::ReadFault => ShellOutcome::ReadFault { finished },
        Stop::WriteFault { written } => ShellOutcome::WriteFault { written, finished },
        Stop::NoMemory => ShellOutcome::NoMemory { finished },
    }
}

/// Runs the command of a line.
fn run_line<D: Disk>(
    alloc: Global,
    disk: &mut D,
    geometry: &Geometry,
    leave: Leave,
    cursor: &mut Cursor,
    line: &[u8],
    text: &mut Vec<u8>,
) -> Result<Verdict, Stop>
    requires inside { geometry.now.dblocks ≤ D.size disk.old }
    requires within { IsWithin geometry.now.dblocks (session_of cursor.old) }
    ensures within { IsWithin geometry.now.dblocks (session_of cursor.new) }
    ensures outcome { ForSome (D.holds disk.old) (λ image. IsCommandOutcome (attempts (volume_of geometry.now) leave (line_parts Cut.Blanks line.now) (block_at_place image (session_of cursor.old).at) (session_of cursor.old)) image text.old.items text.new.items (session_of cursor.new) (D.holds disk.new) (D.writes disk.old) (D.writes disk.new) result) }
    ensures passes { ForSome (D.holds disk.old) (λ image. Passes D.holds D.tells_stops D.moment D.may_leave D.left_since image (image_after (attempts (volume_of geometry.now) leave (line_parts Cut.Blanks line.now) (block_at_place image (session_of cursor.old).at) (session_of cursor.old)).put image) disk.old disk.new) }
    ensures disk { IsStep D.size D.holds D.faults D.write_faults D.reads D.writes D.tells_stops D.moment D.may_leave D.left_since (may_write leave) disk.old disk.new (stop_told result) }
    ensures quits { is_quit_words (line_parts Cut.Blanks line.now) ≡ true → IfOk result (λ verdict. is_quit verdict ≡ true) }
{
    let words = match parts(alloc, Cut::Blanks, line) {
        Ok(words) => words,
        Err(NoMemory) => return Err(Stop::NoMemory),
    };
    run_words(alloc, disk, geometry, leave, cursor, words.as_slice(), text)
}

/// Runs the command of a line, and puts its lines.
fn run_and_put<D: Disk, O: Sink>(
    alloc: Global,
    disk: &mut D,
    out: &mut O,
    geometry: &Geometry,
    leave: Leave,
    cursor: &mut Cursor,
    line: &[u8],
) -> Result<Verdict, LineEnd>
    requires inside { geometry.now.dblocks ≤ D.size disk.old }
    requires within { IsWithin geometry.now.dblocks (session_of cursor.old) }
    ensures within { IsWithin geometry.now.dblocks (session_of cursor.new) }
    ensures image { ForSome (D.holds disk.old) (λ image. LeavesLine (attempts (volume_of geometry.now) leave (line_parts Cut.Blanks line.now) (block_at_place image (session_of cursor.old).at) (session_of cursor.old)) image (session_of cursor.new) (D.holds disk.new) (D.writes disk.old) (D.writes disk.new) result) }
    ensures text { ForSome (D.holds disk.old) (λ image. ForSome (O.took out.old) (λ before. PrintsLine (attempts (volume_of geometry.now) leave (line_parts Cut.Blanks line.now) (block_at_place image (session_of cursor.old).at) (session_of cursor.old)) before (O.took out.new) result)) }
    ensures silent { IsHalted result → O.took out.new ≡ O.took out.old }
    ensures appends { ForSome (O.took out.old) (λ before. (rest : List ℕ) × (O.took out.new ≡ Some (before ++ rest))) }
    ensures passes { ForSome (D.holds disk.old) (λ image. Passes D.holds D.tells_stops D.moment D.may_leave D.left_since image (image_after (attempts (volume_of geometry.now) leave (line_parts Cut.Blanks line.now) (block_at_place image (session_of cursor.old).at) (session_of cursor.old)).put image) disk.old disk.new) }
    ensures disk { IsStep D.size D.holds D.faults D.write_faults D.reads D.writes D.tells_stops D.moment D.may_leave D.left_since (may_write leave) disk.old disk.new (stop_of_line result) }
    ensures quits { is_quit_words (line_parts Cut.Blanks line.now) ≡ true → IfOk result (λ verdict. is_quit verdict ≡ true) }
    ensures counts { HasCounts (D.faults disk.old) (D.faults disk.new) (D.write_faults disk.old) (D.write_faults disk.new) (O.faults out.old) (O.faults out.new) }
    ensures cause { HasLineCause (D.faults disk.old) (D.faults disk.new) (D.write_faults disk.old) (D.write_faults disk.new) (O.faults out.old) (O.faults out.new) result }
{
    let mut text = Vec::new(alloc);
    let verdict = match run_line(alloc, disk, geometry, leave, cursor, line, &mut text) {
        Ok(verdict) => verdict,
        Err(stop) => return Err(LineEnd::Stopped(stop)),
    };
    match out.put(text.as_slice()) {
        Ok(()) => Ok(verdict),
        Err(Failed) => Err(LineEnd::OutputFault),
    }
}

/// Runs lines up to the first `quit`, and puts what each prints.
pub(crate) fn run_lines<D: Disk, O: Sink>(
    alloc: Global,
    disk: &mut D,
    out: &mut O,
    geometry: &Geometry,
    leave: Leave,
    lines: &[Word],
) -> ShellOutcome
    requires inside { geometry.now.dblocks ≤ D.size disk.old }
    ensures ran { IsOfLines result }
    ensures image { ForSome (D.holds disk.old) (λ image. LeavesDisk (volume_of geometry.now) leave lines.now image (D.holds disk.new) (D.writes disk.old) (D.writes disk.new) result) }
    ensures text { ForSome (D.holds disk.old) (λ image. ForSome (O.took out.old) (λ before. Prints (volume_of geometry.now) leave lines.now image before (O.took out.new) result)) }
    ensures silent { IsEarly result → O.took out.new ≡ O.took out.old }
    ensures appends { ForSome (O.took out.old) (λ before. (rest : List ℕ) × (O.took out.new ≡ Some (before ++ rest))) }
    ensures stops { ForSome (D.holds disk.old) (λ image. HasPassed D.holds D.tells_stops D.moment D.may_leave D.left_since (volume_of geometry.now) leave lines.now image disk.old disk.new) }
    ensures disk { RunsOver D.size D.holds D.reads D.writes D.write_faults D.tells_stops D.moment D.may_leave D.left_since (may_write leave) (until_quit lines.now) (until_quit lines.now) disk.old disk.new result }
    ensures cause { (takes takes_now : ℕ) → HasSessionCause (D.faults disk.old) (D.faults disk.new) (D.write_faults disk.old) (D.write_faults disk.new) takes takes_now (O.faults out.old) (O.faults out.new) result }
{
    let mut cursor = Cursor {
        at: None,
        stack: Vec::new(alloc),
    };
    let mut finished = 0;
    while finished < lines.len() {
        let line = word_at(lines, finished);
        match run_and_put(alloc, disk, out, geometry, leave, &mut cursor, line) {
            Ok(verdict) => {
                if verdict.is_quit() {
                    return ShellOutcome::Done;
                }
                finished += 1;
            }
            Err(end) => return end.behind(finished),
        }
    }
    ShellOutcome::Done
}
