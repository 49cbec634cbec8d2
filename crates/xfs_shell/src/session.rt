//! The commands of a line over a disk.

ghost use Rattle.std.specs.Prelude.{◌≡◌, ℕ, ◌<◌, ◌≤◌, List, length, Some, OnOk, IfOk, IfErr, true, slice_get, slice_set};
ghost use Rattle.std.specs.Option.{ForSome};
ghost use Rattle.xfs_geom.specs.Volumes.{volume_of};
ghost use Rattle.xfs_commands.specs.Commands.{session_of, IsWithin};
ghost use Rattle.xfs_commands.specs.Cursors.{is_quit};
ghost use Rattle.xfs_commands.specs.Verbs.{accepted};
ghost use Rattle.xfs_shell.specs.Running.{attempts, block_at_place, image_after, is_push, is_push_verb, is_quit_verb, is_quit_words, pushes_in, may_write, runs, runs_addr, runs_first, runs_named, runs_placeless, runs_print, sets_here, writes};
ghost use Rattle.xfs_shell.specs.Sessions.{stopped, IsWrittenBehind, IsCommandOutcome};
ghost use Rattle.xfs_shell.specs.Stops.{Passes};
ghost use Rattle.xfs_shell.specs.Steps.{stop_told, IsOneRead, IsStep, IsWritten};

use std::alloc::Global;
use xfs_commands::{
    Cursor, Verb, Verdict, go_along, print, refuse, refuse_word, run_alone, set, word_at,
};
use xfs_disk::{BLOCK_SIZE, Disk, Failed, NoMemory, Word};
use xfs_geom::Geometry;
use xfs_objects::ObjectPlace;

/// What the user may do.
#[derive(Clone, Copy)]
pub(crate) struct Leave {
    /// Fields may be written.
    pub expert: bool,
    /// Nothing is written.
    pub read_only: bool,
}

/// Why a command was not finished.
#[derive(Clone, Copy)]
pub(crate) enum Stop {
    ReadFault,
    /// A write or a sync failed behind so many blocks of the command.
    WriteFault { written: u64 },
    NoMemory,
}

/// The outcome of a command that reads and writes nothing.
fn or_stop(outcome: Result<Verdict, NoMemory>) -> Result<Verdict, Stop>
    ensures { result ≡ stopped outcome }
{
    match outcome {
        Ok(verdict) => Ok(verdict),
        Err(NoMemory) => Err(Stop::NoMemory),
    }
}

/// Runs a command, but for `push`.
#[tactic(auto, using(crate::proofs::Settling::settling))]
fn run_verb<D: Disk>(
    alloc: Global,
    disk: &mut D,
    geometry: &Geometry,
    leave: Leave,
    cursor: &mut Cursor,
    verb: Verb,
    name: &[u8],
    arguments: &[Word],
    text: &mut Vec<u8>,
) -> Result<Verdict, Stop>
    requires inside { geometry.now.dblocks ≤ D.size disk.old }
    requires within { IsWithin geometry.now.dblocks (session_of cursor.old) }
    ensures within { IsWithin geometry.now.dblocks (session_of cursor.new) }
    ensures outcome { ForSome (D.holds disk.old) (λ image. IsCommandOutcome (runs (volume_of geometry.now) leave verb name.now arguments.now (block_at_place image (session_of cursor.old).at) (session_of cursor.old)) image text.old.items text.new.items (session_of cursor.new) (D.holds disk.new) (D.writes disk.old) (D.writes disk.new) result) }
    ensures passes { ForSome (D.holds disk.old) (λ image. Passes D.holds D.tells_stops D.moment D.may_leave D.left_since image (image_after (runs (volume_of geometry.now) leave verb name.now arguments.now (block_at_place image (session_of cursor.old).at) (session_of cursor.old)).put image) disk.old disk.new) }
    ensures disk { IsStep D.size D.holds D.faults D.write_faults D.reads D.writes D.tells_stops D.moment D.may_leave D.left_since (may_write leave) disk.old disk.new (stop_told result) }
    ensures quits { is_quit_verb (Some verb) ≡ true → IfOk result (λ verdict. is_quit verdict ≡ true) }
{
    match verb {
        Verb::Addr => run_addr(alloc, disk, geometry, cursor, word_at(arguments, 0), text),
        Verb::Print => run_print(alloc, disk, cursor, arguments, text),
        Verb::Write => run_write(alloc, disk, leave, cursor, arguments, text),
        _ => or_stop(run_alone(text, geometry, cursor, verb, name, arguments)),
    }
}

/// Goes to the block that an item of the current object points at.
#[tactic(auto, using(crate::proofs::Settling::settling))]
fn run_addr<D: Disk>(
    alloc: Global,
    disk: &mut D,
    geometry: &Geometry,
    cursor: &mut Cursor,
    word: &[u8],
    text: &mut Vec<u8>,
) -> Result<Verdict, Stop>
    requires inside { geometry.now.dblocks ≤ D.size disk.old }
    requires within { IsWithin geometry.now.dblocks (session_of cursor.old) }
    ensures within { IsWithin geometry.now.dblocks (session_of cursor.new) }
    ensures outcome { ForSome (D.holds disk.old) (λ image. IsCommandOutcome (runs_addr (volume_of geometry.now) word.now (block_at_place image (session_of cursor.old).at) (session_of cursor.old)) image text.old.items text.new.items (session_of cursor.new) (D.holds disk.new) (D.writes disk.old) (D.writes disk.new) result) }
    ensures disk { IsOneRead D.size D.holds D.faults D.write_faults D.reads D.writes D.tells_stops D.moment D.may_leave D.left_since disk.old disk.new (stop_told result) }
{
    let Some(place) = cursor.at else {
        return or_stop(refuse(text, "no address\n"));
    };
    let mut block = [0; BLOCK_SIZE];
    match read_block(disk, place.block, &mut block) {
        Ok(()) => {}
        Err(stop) => return Err(stop),
    }
    let object = place.kind.object(place.sector, &block);
    or_stop(go_along(alloc, text, geometry, cursor, place, object, word))
}

/// Prints items of the current object.
#[tactic(auto, using(crate::proofs::Settling::settling))]
fn run_print<D: Disk>(
    alloc: Global,
    disk: &mut D,
    cursor: &Cursor,
    arguments: &[Word],
    text: &mut Vec<u8>,
) -> Result<Verdict, Stop>
    requires within { IsWithin (D.size disk.old) (session_of cursor.now) }
    ensures outcome { ForSome (D.holds disk.old) (λ image. IsCommandOutcome (runs_print arguments.now (block_at_place image (session_of cursor.now).at) (session_of cursor.now)) image text.old.items text.new.items (session_of cursor.now) (D.holds disk.new) (D.writes disk.old) (D.writes disk.new) result) }
    ensures disk { IsOneRead D.size D.holds D.faults D.write_faults D.reads D.writes D.tells_stops D.moment D.may_leave D.left_since disk.old disk.new (stop_told result) }
{
    let Some(place) = cursor.at else {
        return or_stop(refuse(text, "no address\n"));
    };
    let mut block = [0; BLOCK_SIZE];
    match read_block(disk, place.block, &mut block) {
        Ok(()) => {}
        Err(stop) => return Err(stop),
    }
    let object = place.kind.object(place.sector, &block);
    or_stop(print(alloc, text, cursor, place.kind, object, arguments))
}

/// Writes a number into the current object, where that is allowed.
#[tactic(auto, using(crate::proofs::Settling::settling))]
fn run_write<D: Disk>(
    alloc: Global,
    disk: &mut D,
    leave: Leave,
    cursor: &Cursor,
    arguments: &[Word],
    text: &mut Vec<u8>,
) -> Result<Verdict, Stop>
    requires within { IsWithin (D.size disk.old) (session_of cursor.now) }
    ensures outcome { ForSome (D.holds disk.old) (λ image. IsCommandOutcome (writes leave (block_at_place image (session_of cursor.now).at) arguments.now (session_of cursor.now)) image text.old.items text.new.items (session_of cursor.now) (D.holds disk.new) (D.writes disk.old) (D.writes disk.new) result) }
    ensures passes { ForSome (D.holds disk.old) (λ image. Passes D.holds D.tells_stops D.moment D.may_leave D.left_since image (image_after (writes leave (block_at_place image (session_of cursor.now).at) arguments.now (session_of cursor.now)).put image) disk.old disk.new) }
    ensures disk { IsStep D.size D.holds D.faults D.write_faults D.reads D.writes D.tells_stops D.moment D.may_leave D.left_since (may_write leave) disk.old disk.new (stop_told result) }
{
    if !leave.expert {
        return or_stop(refuse(text, "write: needs -x\n"));
    }
    if leave.read_only {
        return or_stop(refuse(text, "write: read-only\n"));
    }
    run_set(alloc, disk, cursor, arguments, text)
}

/// Writes a number into the current object.
#[tactic(auto, using(crate::proofs::Settling::settling))]
fn run_set<D: Disk>(
    alloc: Global,
    disk: &mut D,
    cursor: &Cursor,
    arguments: &[Word],
    text: &mut Vec<u8>,
) -> Result<Verdict, Stop>
    requires within { IsWithin (D.size disk.old) (session_of cursor.now) }
    ensures outcome { ForSome (D.holds disk.old) (λ image. IsCommandOutcome (sets_here (block_at_place image (session_of cursor.now).at) arguments.now (session_of cursor.now)) image text.old.items text.new.items (session_of cursor.now) (D.holds disk.new) (D.writes disk.old) (D.writes disk.new) result) }
    ensures passes { ForSome (D.holds disk.old) (λ image. Passes D.holds D.tells_stops D.moment D.may_leave D.left_since image (image_after (sets_here (block_at_place image (session_of cursor.now).at) arguments.now (session_of cursor.now)).put image) disk.old disk.new) }
    ensures disk { IsStep D.size D.holds D.faults D.write_faults D.reads D.writes D.tells_stops D.moment D.may_leave D.left_since true disk.old disk.new (stop_told result) }
{
    let Some(place) = cursor.at else {
        return or_stop(refuse(text, "no address\n"));
    };
    let mut block = [0; BLOCK_SIZE];
    match read_block(disk, place.block, &mut block) {
        Ok(()) => {}
        Err(stop) => return Err(stop),
    }
    let name = word_at(arguments, 0);
    let value = word_at(arguments, 1);
    let verdict = match set(alloc, text, cursor, place, &mut block, name, value) {
        Ok(verdict) => verdict,
        Err(NoMemory) => return Err(Stop::NoMemory),
    };
    match verdict {
        Verdict::Done => {}
        Verdict::Refused => return Ok(verdict),
        Verdict::Quit => return Ok(verdict),
    }
    match put_block(disk, place.block, &block) {
        Ok(()) => Ok(verdict),
        Err(stop) => Err(stop),
    }
}

/// Reads a block.
fn read_block<D: Disk>(disk: &mut D, at: u64, block: &mut [u8]) -> Result<(), Stop>
    requires inside { at < D.size disk.old }
    requires whole { length block.old ≡ 4096 }
    ensures bytes { OnOk result (ForSome (D.holds disk.old) (λ image. slice_get image at ≡ Some block.new)) }
    ensures fault { IfErr result (λ stop. stop ≡ Stop.ReadFault) }
    ensures disk { IsOneRead D.size D.holds D.faults D.write_faults D.reads D.writes D.tells_stops D.moment D.may_leave D.left_since disk.old disk.new (stop_told result) }
{
    match disk.read(at, block) {
        Ok(()) => Ok(()),
        Err(Failed) => Err(Stop::ReadFault),
    }
}

/// Writes a block, and waits until it is kept. A fault tells whether it was written before.
fn put_block<D: Disk>(disk: &mut D, at: u64, block: &[u8]) -> Result<(), Stop>
    requires inside { at < D.size disk.old }
    requires whole { length block.now ≡ 4096 }
    ensures written { OnOk result (ForSome (D.holds disk.old) (λ image. D.holds disk.new ≡ Some (slice_set image at block.now))) }
    ensures fault { IfErr result (λ stop. (written : ℕ) × (stop ≡ Stop.WriteFault written) × ForSome (D.holds disk.old) (λ image.
        IsWrittenBehind written image (slice_set image at block.now) (D.holds disk.new))) }
    ensures reads { D.reads disk.new ≡ D.reads disk.old }
    ensures passes { ForSome (D.holds disk.old) (λ image. Passes D.holds D.tells_stops D.moment D.may_leave D.left_since image (slice_set image at block.now) disk.old disk.new) }
    ensures disk { IsWritten D.size D.holds D.faults D.write_faults D.reads D.writes D.tells_stops D.may_leave true disk.old disk.new (stop_told result) }
{
    match disk.write(at, block) {
        Ok(()) => {}
        Err(Failed) => return Err(Stop::WriteFault { written: 0 }),
    }
    let kept = disk.sync();
    match kept {
        Ok(()) => Ok(()),
        Err(Failed) => Err(Stop::WriteFault { written: 1 }),
    }
}

/// Runs the command that words are, but for `push`.
fn run_command<D: Disk>(
    alloc: Global,
    disk: &mut D,
    geometry: &Geometry,
    leave: Leave,
    cursor: &mut Cursor,
    words: &[Word],
    text: &mut Vec<u8>,
) -> Result<Verdict, Stop>
    requires inside { geometry.now.dblocks ≤ D.size disk.old }
    requires within { IsWithin geometry.now.dblocks (session_of cursor.old) }
    ensures within { IsWithin geometry.now.dblocks (session_of cursor.new) }
    ensures outcome { ForSome (D.holds disk.old) (λ image. IsCommandOutcome (runs_first (volume_of geometry.now) leave words.now (block_at_place image (session_of cursor.old).at) (session_of cursor.old)) image text.old.items text.new.items (session_of cursor.new) (D.holds disk.new) (D.writes disk.old) (D.writes disk.new) result) }
    ensures passes { ForSome (D.holds disk.old) (λ image. Passes D.holds D.tells_stops D.moment D.may_leave D.left_since image (image_after (runs_first (volume_of geometry.now) leave words.now (block_at_place image (session_of cursor.old).at) (session_of cursor.old)).put image) disk.old disk.new) }
    ensures disk { IsStep D.size D.holds D.faults D.write_faults D.reads D.writes D.tells_stops D.moment D.may_leave D.left_since (may_write leave) disk.old disk.new (stop_told result) }
    ensures quits { is_quit_words words.now ≡ true → IfOk result (λ verdict. is_quit verdict ≡ true) }
{
    let Some((name, arguments)) = words.split_first() else {
        return Ok(Verdict::Done);
    };
    run_named(
        alloc,
        disk,
        geometry,
        leave,
        cursor,
        name.bytes(),
        arguments,
        text,
    )
}

/// Runs the command of a name, but for `push`.
#[tactic(auto, using(crate::proofs::Settling::settling))]
fn run_named<D: Disk>(
    alloc: Global,
    disk: &mut D,
    geometry: &Geometry,
    leave: Leave,
    cursor: &mut Cursor,
    name: &[u8],
    arguments: &[Word],
    text: &mut Vec<u8>,
) -> Result<Verdict, Stop>
    requires inside { geometry.now.dblocks ≤ D.size disk.old }
    requires within { IsWithin geometry.now.dblocks (session_of cursor.old) }
    ensures within { IsWithin geometry.now.dblocks (session_of cursor.new) }
    ensures outcome { ForSome (D.holds disk.old) (λ image. IsCommandOutcome (runs_named (volume_of geometry.now) leave (accepted name.now (length arguments.now)) name.now arguments.now (block_at_place image (session_of cursor.old).at) (session_of cursor.old)) image text.old.items text.new.items (session_of cursor.new) (D.holds disk.new) (D.writes disk.old) (D.writes disk.new) result) }
    ensures passes { ForSome (D.holds disk.old) (λ image. Passes D.holds D.tells_stops D.moment D.may_leave D.left_since image (image_after (runs_named (volume_of geometry.now) leave (accepted name.now (length arguments.now)) name.now arguments.now (block_at_place image (session_of cursor.old).at) (session_of cursor.old)).put image) disk.old disk.new) }
    ensures disk { IsStep D.size D.holds D.faults D.write_faults D.reads D.writes D.tells_stops D.moment D.may_leave D.left_since (may_write leave) disk.old disk.new (stop_told result) }
    ensures quits { is_quit_verb (accepted name.now (length arguments.now)) ≡ true → IfOk result (λ verdict. is_quit verdict ≡ true) }
{
    match Verb::accepted(name, arguments.len()) {
        Some(verb) => run_verb(
            alloc, disk, geometry, leave, cursor, verb, name, arguments, text,
        ),
        None => or_stop(refuse_word(text, "bad command: ", name)),
    }
}

/// Runs the words of a command.
#[tactic(auto, using(crate::proofs::Settling::settling))]
pub(crate) fn run_words<D: Disk>(
    alloc: Global,
    disk: &mut D,
    geometry: &Geometry,
    leave: Leave,
    cursor: &mut Cursor,
    words: &[Word],
    text: &mut Vec<u8>,
) -> Result<Verdict, Stop>
    requires inside { geometry.now.dblocks ≤ D.size disk.old }
    requires within { IsWithin geometry.now.dblocks (session_of cursor.old) }
    ensures within { IsWithin geometry.now.dblocks (session_of cursor.new) }
    ensures outcome { ForSome (D.holds disk.old) (λ image. IsCommandOutcome (attempts (volume_of geometry.now) leave words.now (block_at_place image (session_of cursor.old).at) (session_of cursor.old)) image text.old.items text.new.items (session_of cursor.new) (D.holds disk.new) (D.writes disk.old) (D.writes disk.new) result) }
    ensures passes { ForSome (D.holds disk.old) (λ image. Passes D.holds D.tells_stops D.moment D.may_leave D.left_since image (image_after (attempts (volume_of geometry.now) leave words.now (block_at_place image (session_of cursor.old).at) (session_of cursor.old)).put image) disk.old disk.new) }
    ensures disk { IsStep D.size D.holds D.faults D.write_faults D.reads D.writes D.tells_stops D.moment D.may_leave D.left_since (may_write leave) disk.old disk.new (stop_told result) }
    ensures quits { is_quit_words words.now ≡ true → IfOk result (λ verdict. is_quit verdict ≡ true) }
{
    match cursor.at {
        Some(place) => run_behind(alloc, disk, geometry, leave, cursor, place, words, text),
        None => run_placeless(alloc, disk, geometry, leave, cursor, words, text),
    }
}

/// Runs the words of a command where there is no current place.
#[tactic(auto, using(crate::proofs::Settling::settling))]
fn run_placeless<D: Disk>(
    alloc: Global,
    disk: &mut D,
    geometry: &Geometry,
    leave: Leave,
    cursor: &mut Cursor,
    words: &[Word],
    text: &mut Vec<u8>,
) -> Result<Verdict, Stop>
    requires inside { geometry.now.dblocks ≤ D.size disk.old }
    requires within { IsWithin geometry.now.dblocks (session_of cursor.old) }
    ensures within { IsWithin geometry.now.dblocks (session_of cursor.new) }
    ensures outcome { ForSome (D.holds disk.old) (λ image. IsCommandOutcome (runs_placeless (volume_of geometry.now) leave words.now (block_at_place image (session_of cursor.old).at) (session_of cursor.old)) image text.old.items text.new.items (session_of cursor.new) (D.holds disk.new) (D.writes disk.old) (D.writes disk.new) result) }
    ensures passes { ForSome (D.holds disk.old) (λ image. Passes D.holds D.tells_stops D.moment D.may_leave D.left_since image (image_after (runs_placeless (volume_of geometry.now) leave words.now (block_at_place image (session_of cursor.old).at) (session_of cursor.old)).put image) disk.old disk.new) }
    ensures disk { IsStep D.size D.holds D.faults D.write_faults D.reads D.writes D.tells_stops D.moment D.may_leave D.left_since (may_write leave) disk.old disk.new (stop_told result) }
    ensures quits { is_quit_words words.now ≡ true → IfOk result (λ verdict. is_quit verdict ≡ true) }
{
    if is_push(words) {
        return or_stop(refuse(text, "no address\n"));
    }
    run_command(alloc, disk, geometry, leave, cursor, words, text)
}

/// Prints the current place onto the stack as often as words begin with `push`, and runs the command behind these. Where
/// it can't be run the stack is as before.
fn run_behind<D: Disk>(
    alloc: Global,
    disk: &mut D,
    geometry: &Geometry,
    leave: Leave,
    cursor: &mut Cursor,
    place: ObjectPlace,
    words: &[Word],
    text: &mut Vec<u8>,
) -> Result<Verdict, Stop>
    requires place { cursor.old.at ≡ Some place }
    requires inside { geometry.now.dblocks ≤ D.size disk.old }
    requires within { IsWithin geometry.now.dblocks (session_of cursor.old) }
    ensures within { IsWithin geometry.now.dblocks (session_of cursor.new) }
    ensures outcome { ForSome (D.holds disk.old) (λ image. IsCommandOutcome (attempts (volume_of geometry.now) leave words.now (block_at_place image (session_of cursor.old).at) (session_of cursor.old)) image text.old.items text.new.items (session_of cursor.new) (D.holds disk.new) (D.writes disk.old) (D.writes disk.new) result) }
    ensures passes { ForSome (D.holds disk.old) (λ image. Passes D.holds D.tells_stops D.moment D.may_leave D.left_since image (image_after (attempts (volume_of geometry.now) leave words.now (block_at_place image (session_of cursor.old).at) (session_of cursor.old)).put image) disk.old disk.new) }
    ensures disk { IsStep D.size D.holds D.faults D.write_faults D.reads D.writes D.tells_stops D.moment D.may_leave D.left_since (may_write leave) disk.old disk.new (stop_told result) }
    ensures quits { is_quit_words words.now ≡ true → IfOk result (λ verdict. is_quit verdict ≡ true) }
{
    let kept = cursor.stack.as_slice().len();
    let count = count_pushes(words);
    match cursor.save(place, count) {
        Ok(()) => {}
        Err(NoMemory) => return Err(Stop::NoMemory),
    }
    let verdict = match run_command(
        alloc,
        disk,
        geometry,
        leave,
        cursor,
        words.split_at(count).1,
        text,
    ) {
        Ok(verdict) => verdict,
        Err(stop) => return Err(stop),
    };
    cursor.drop_refused(verdict, kept);
    Ok(verdict)
}

/// With how many `push` words begin.
fn count_pushes(words: &[Word]) -> usize
    ensures value { result ≡ pushes_in words.now }
    ensures inside { result ≤ length words.now }
{
    let mut count = 0;
    while is_push(words.split_at(count).1) {
        count += 1;
    }
    count
}

/// Whether words begin with `push`.
fn is_push(words: &[Word]) -> bool
    ensures { result ≡ is_push words.now }
{
    match words.split_first() {
        Some((name, arguments)) => is_push_verb(Verb::accepted(name.bytes(), arguments.len())),
        None => false,
    }
}

/// Whether a command is `push`.
fn is_push_verb(verb: Option<Verb>) -> bool
    ensures { result ≡ is_push_verb verb }
{
    match verb {
        Some(Verb::Push) => true,
        _ => false,
    }
}
