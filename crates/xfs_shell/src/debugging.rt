//! A session of the debugger over the volume of a disk.

ghost use Rattle.std.specs.Prelude.{◌≡◌, ℕ, ◌+◌, ◌≤◌, ◌++◌, [], List, Some, IfOk};
ghost use Rattle.std.specs.Option.{ForSome};
ghost use Rattle.xfs_geom.specs.Election.{elected};
ghost use Rattle.xfs_geom.specs.Volumes.{stated_volume, volume_of};
ghost use Rattle.xfs_shell.specs.Running.{may_write};
ghost use Rattle.xfs_shell.specs.Shells.{input_lines, leave_of, most_of, told_lines, HasSessionCause, HasElected, HasInput, IsEarly, IsPastElection, LeavesDisk, Prints, RunsOver};
ghost use Rattle.xfs_shell.specs.Stops.{HasPassed, StopsBetween};

use crate::input::{InputFault, read_input};
use crate::line_parts::{Cut, parts};
use crate::outcomes::{ShellOptions, ShellOutcome};
use crate::running::run_lines;
use crate::session::Leave;
use std::alloc::Global;
use xfs_disk::{Disk, NoMemory, Sink, Source, Word};
use xfs_geom::{ElectFault, Geometry, elect};

/// Runs the commands of the options, or where there is none those of an input, over the volume of a disk. Each command
/// is a line, and what it prints is put when it is done. An input is read whole before the first command.
///
/// Contracts say the outcome, the image that is left and the text that is put each where what it rests on tells: the disk, the
/// output for the text, and the input unless there are commands.
pub fn shell<D: Disk, S: Source, O: Sink>(
    alloc: Global,
    disk: &mut D,
    input: &mut S,
    out: &mut O,
    options: &ShellOptions,
) -> ShellOutcome
    ensures elected { ForSome (D.holds disk.old) (λ image. HasElected (elected image) result) }
    ensures input { HasInput options.now.commands (S.left input.old) result }
    ensures image { ForSome (D.holds disk.old) (λ image. IfOk (elected image) (λ vote. ForSome (told_lines options.now.commands (S.left input.old)) (λ lines.
        LeavesDisk (stated_volume vote.sector) (leave_of options.now) lines image (D.holds disk.new) (D.writes disk.old) (D.writes disk.new) result))) }
    ensures text { ForSome (D.holds disk.old) (λ image. IfOk (elected image) (λ vote. ForSome (told_lines options.now.commands (S.left input.old)) (λ lines.
        ForSome (O.took out.old) (λ before. Prints (stated_volume vote.sector) (leave_of options.now) lines image before (O.took out.new) result)))) }
    ensures stops { ForSome (D.holds disk.old) (λ image. IfOk (elected image) (λ vote. ForSome (told_lines options.now.commands (S.left input.old)) (λ lines.
        StopsBetween D.holds D.tells_stops D.moment D.may_leave D.left_since (stated_volume vote.sector) (leave_of options.now) lines image disk.old disk.new))) }
    ensures silent { IsEarly result → O.took out.new ≡ O.took out.old }
    ensures appends { ForSome (O.took out.old) (λ before. (rest : List ℕ) × (O.took out.new ≡ Some (before ++ rest))) }
    ensures disk { RunsOver D.size D.holds D.reads D.writes D.write_faults D.tells_stops D.moment D.may_leave D.left_since (may_write (leave_of options.now))
        (D.size disk.old + most_of (told_lines options.now.commands (S.left input.old))) (most_of (told_lines options.now.commands (S.left input.old))) disk.old disk.new result }
    ensures cause { HasSessionCause (D.faults disk.old) (D.faults disk.new) (D.write_faults disk.old) (D.write_faults disk.new)
        (S.faults input.old) (S.faults input.new) (O.faults out.old) (O.faults out.new) result }
{
    let elected = match elect(alloc, disk) {
        Ok(elected) => elected,
        Err(ElectFault::NoGeometry) => return ShellOutcome::NoGeometry,
        Err(ElectFault::Unsupported { word, bits }) => return ShellOutcome::Unsupported {
            word,
            bits,
        },
        Err(ElectFault::ReadFault) => return ShellOutcome::ReadFault { finished: 0 },
        Err(ElectFault::NoMemory) => return ShellOutcome::NoMemory { finished: 0 },
    };
    run_asked(alloc, disk, input, out, &elected.geometry, options)
}

/// Runs the commands of the options, or where there is none those of an input, over a volume.
fn run_asked<D: Disk, S: Source, O: Sink>(
    alloc: Global,
    disk: &mut D,
    input: &mut S,
    out: &mut O,
    geometry: &Geometry,
    options: &ShellOptions,
) -> ShellOutcome
    requires inside { geometry.now.dblocks ≤ D.size disk.old }
    ensures past { IsPastElection result }
    ensures input { HasInput options.now.commands (S.left input.old) result }
    ensures image { ForSome (D.holds disk.old) (λ image. ForSome (told_lines options.now.commands (S.left input.old)) (λ lines.
        LeavesDisk (volume_of geometry.now) (leave_of options.now) lines image (D.holds disk.new) (D.writes disk.old) (D.writes disk.new) result)) }
    ensures text { ForSome (D.holds disk.old) (λ image. ForSome (told_lines options.now.commands (S.left input.old)) (λ lines.
        ForSome (O.took out.old) (λ before. Prints (volume_of geometry.now) (leave_of options.now) lines image before (O.took out.new) result))) }
    ensures stops { ForSome (D.holds disk.old) (λ image. ForSome (told_lines options.now.commands (S.left input.old)) (λ lines.
        HasPassed D.holds D.tells_stops D.moment D.may_leave D.left_since (volume_of geometry.now) (leave_of options.now) lines image disk.old disk.new)) }
    ensures silent { IsEarly result → O.took out.new ≡ O.took out.old }
    ensures appends { ForSome (O.took out.old) (λ before. (rest : List ℕ) × (O.took out.new ≡ Some (before ++ rest))) }
    ensures disk { RunsOver D.size D.holds D.reads D.writes D.write_faults D.tells_stops D.moment D.may_leave D.left_since (may_write (leave_of options.now))
        (most_of (told_lines options.now.commands (S.left input.old))) (most_of (told_lines options.now.commands (S.left input.old))) disk.old disk.new result }
    ensures cause { HasSessionCause (D.faults disk.old) (D.faults disk.new) (D.write_faults disk.old) (D.write_faults disk.new)
        (S.faults input.old) (S.faults input.new) (O.faults out.old) (O.faults out.new) result }
{
    let leave = Leave {
        expert: options.expert,
        read_only: options.read_only,
    };
    let commands = options.commands.as_slice();
    if commands.is_empty() {
        run_input(alloc, disk, input, out, geometry, leave)
    } else {
        run_lines(alloc, disk, out, geometry, leave, commands)
    }
}

/// Reads an input, and runs its lines.
fn run_input<D: Disk, S: Source, O: Sink>(
    alloc: Global,
    disk: &mut D,
    input: &mut S,
    out: &mut O,
    geometry: &Geometry,
    leave: Leave,
) -> ShellOutcome
    requires inside { geometry.now.dblocks ≤ D.size disk.old }
    ensures past { IsPastElection result }
    ensures input { HasInput [] (S.left input.old) result }
    ensures image { ForSome (D.holds disk.old) (λ image. ForSome (input_lines (S.left input.old)) (λ lines.
        LeavesDisk (volume_of geometry.now) leave lines image (D.holds disk.new) (D.writes disk.old) (D.writes disk.new) result)) }
    ensures text { ForSome (D.holds disk.old) (λ image. ForSome (input_lines (S.left input.old)) (λ lines.
        ForSome (O.took out.old) (λ before. Prints (volume_of geometry.now) leave lines image before (O.took out.new) result))) }
    ensures stops { ForSome (D.holds disk.old) (λ image. ForSome (input_lines (S.left input.old)) (λ lines.
        HasPassed D.holds D.tells_stops D.moment D.may_leave D.left_since (volume_of geometry.now) leave lines image disk.old disk.new)) }
    ensures silent { IsEarly result → O.took out.new ≡ O.took out.old }
    ensures appends { ForSome (O.took out.old) (λ before. (rest : List ℕ) × (O.took out.new ≡ Some (before ++ rest))) }
    ensures disk { RunsOver D.size D.holds D.reads D.writes D.write_faults D.tells_stops D.moment D.may_leave D.left_since (may_write leave)
        (most_of (input_lines (S.left input.old))) (most_of (input_lines (S.left input.old))) disk.old disk.new result }
    ensures cause { HasSessionCause (D.faults disk.old) (D.faults disk.new) (D.write_faults disk.old) (D.write_faults disk.new)
        (S.faults input.old) (S.faults input.new) (O.faults out.old) (O.faults out.new) result }
{
    let bytes = match read_input(alloc, input) {
        Ok(bytes) => bytes,
        Err(InputFault::Failed) => return ShellOutcome::InputFault,
        Err(InputFault::Long) => return ShellOutcome::InputLong,
        Err(InputFault::NoMemory) => return ShellOutcome::NoMemory { finished: 0 },
    };
    let lines = match parts(alloc, Cut::LineFeeds, bytes.as_slice()) {
        Ok(lines) => lines,
        Err(NoMemory) => return ShellOutcome::NoMemory { finished: 0 },
    };
    run_lines(alloc, disk, out, geometry, leave, lines.as_slice())
}
