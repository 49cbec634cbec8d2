//! The top call: a command line and an image in, an answer, its line and an exit status out.

ghost use Rattle.std.specs.Prelude.{◌≡◌, ℕ, ◌≤◌, ◌&&◌, Bool, true, false, drop, Result, Option, List, Some, None};
ghost use Rattle.std.specs.Option.{ForSome};
ghost use Rattle.xfs_disk.specs.Reads.{OnlyReads};
ghost use Rattle.xfs_disk.specs.declared.failed.Failed.{Failed};
ghost use Rattle.xfs_options.specs.DebugWords.{debug_of};
ghost use Rattle.xfs_options.specs.MakeWords.{make_of};
ghost use Rattle.xfs_tools.specs.CommandLine.{is_debugger, is_maker, judged, tells_in, tells_repair};
ghost use Rattle.xfs_tools.specs.Debugging.{IsDebugged, IsShelled, session_status};
ghost use Rattle.xfs_tools.specs.Explaining.{IsLook, IsText, IsToldBehind, explained};
ghost use Rattle.xfs_tools.specs.HelpWords.{text_asked};
ghost use Rattle.xfs_tools.specs.Generating.{IsGenerated, files_asked};
ghost use Rattle.xfs_tools.specs.Making.{IsMake, IsMaking, IsToldUnless, is_made};
ghost use Rattle.xfs_tools.specs.Repairing.{IsRepair, IsRepairing, only_checks};
ghost use Rattle.xfs_tools.specs.Texts.{text_of};
ghost use Rattle.xfs_texts.specs.Lines.{PutsText};
ghost use Rattle.xfs_tools.specs.Answers.{IsTold, status_of};
ghost use Rattle.xfs_tools.specs.declared.answer.Answer.{Answer};

use crate::answer::{Answer, Status};
use crate::command_line::{Call, RepairWords, is_debugger, is_maker, judge};
use crate::debugger::run_debugger;
use crate::explaining::{look_before, tell_found, told_of};
use crate::help_words::text_asked;
use crate::maker::run_maker;
use crate::texts::end_with;
use std::alloc::Global;
use std::thread::Threads;
use xfs_disk::{Disk, Failed, Gate, Library, Sink, Source, Stamp, Word};
use xfs_image::Finding;
use xfs_mend::repair;

/// The answer to what the words of a repair ask for.
#[derive(Clone, Copy)]
struct Said {
    answer: Answer,
    /// The groups that the primary superblock states, where they are known.
    groups: Option<u32>,
    /// What is told in words.
    found: Option<Finding>,
}

/// Does what the words of a command line say to the disk, and puts the answer's text: to `out` where
/// the volume is clean, damaged, repaired or made, and for help and the version, else to `err`. What the commands of `xfs_db` print goes to `out`.
pub fn run<R: Threads + Sync, D: Disk, L: Library, S: Source, O: Sink, E: Sink, G: Gate>(
    rt: &R,
    alloc: Global,
    words: &[Word],
    disk: &mut D,
    files: &mut L,
    input: &mut S,
    out: &mut O,
    err: &mut E,
    stamp: &Stamp,
    gate: &G,
) -> Status
    // Where the words ask for help or the version and nothing else, that text is put to `out`, and nothing else is done.
    ensures told { (text : Answer) → text_asked words.now ≡ Some text → (put : Result (Unit {0}) Failed)
        × (disk.new ≡ disk.old) × (files.new ≡ files.old) × (input.new ≡ input.old)
        × IsTold O.took O.faults E.took E.faults out.old out.new err.old err.new text put
        × (result ≡ status_of false text put) }
    // For the other words of `xfs_repair`, and those that name no tool: the words are refused and the disk is the same, or the repair that
    // they ask for was run: its outcome is due to the image, a fault comes only where the disk counted one, just so many blocks were
    // written as it says, the image is what it leaves, and at each moment a stop of the machine leaves what it may. The answer's line is put
    // to its stream and nothing to the other, but for a line on `err` in front of it where `-v` asks for that in words; and the status is its own, or that of an output fault where the line could not be
    // put. Of a disk that does not tell what it holds, as a file, the parts on the image say nothing, and all others hold.
    ensures answer { text_asked words.now ≡ None → is_debugger words.now ≡ false → is_maker words.now ≡ false → (answer : Answer) × (text : Option (List ℕ)) × (put : Result (Unit {0}) Failed)
        × IsRepairing (judged words.now) (disk.new ≡ disk.old) (IsRepair D.holds D.size D.faults D.write_faults D.writes D.tells_stops D.moment D.may_leave D.left_since stamp.now disk.old disk.new) answer
        × IsText (IsLook D.holds D.size D.faults D.write_faults D.writes D.tells_stops D.moment D.may_leave D.left_since stamp.now) disk.old (judged words.now) answer text
        × IsToldBehind O.took O.faults E.took E.faults out.old out.new err.old err.new text answer put
        × (result ≡ status_of (tells_repair words.now) answer put) }
    // Under `-n`, and where the words are refused, the disk is only read, whatever it tells: no block and no sync.
    ensures checked { is_debugger words.now ≡ false → is_maker words.now ≡ false → only_checks (judged words.now) ≡ true
        → OnlyReads D.size D.holds D.write_faults D.writes D.tells_stops D.moment D.may_leave D.left_since disk.old disk.new }
    // For the words of `xfs_db`: the session that they ask for was run, with what it prints, what it leaves on the disk and the
    // faults that it counted; or they were refused, or memory lacked for them, and nothing was run. The line of its answer goes
    // to `err`.
    ensures debugged { text_asked words.now ≡ None → is_debugger words.now ≡ true → (answer : Answer) × (finished : ℕ) × (put : Result (Unit {0}) Failed)
        × IsDebugged (debug_of (drop 1 words.now)) ((disk.new ≡ disk.old) × (input.new ≡ input.old) × (out.new ≡ out.old))
        (IsShelled D.holds D.size D.faults D.write_faults D.reads D.writes D.tells_stops D.moment D.may_leave D.left_since S.left S.faults O.took O.faults disk.old disk.new input.old input.new out.old out.new) (D.faults disk.new) answer finished
        × PutsText (E.took err.old) (E.took err.new) (E.faults err.old) (E.faults err.new) (text_of answer) put
        × (result ≡ session_status answer finished put) }
    // For the words of `mkfs.xfs` that ask for no generated files: the volume that they ask for was made or refused, and the disk holds what that leaves; or the
    // words were refused, or memory lacked for them, and nothing was done. The line is left out under `-q` where it was made.
    ensures made { text_asked words.now ≡ None → is_debugger words.now ≡ false → is_maker words.now ≡ true → files_asked (make_of (drop 1 words.now)) ≡ None → (answer : Answer) × (quiet : Bool) × (put : Result (Unit {0}) Failed)
        × IsMaking (make_of (drop 1 words.now)) ((disk.new ≡ disk.old) × (files.new ≡ files.old)) (IsMake D.holds D.size D.faults D.write_faults D.reads D.writes D.tells_stops D.moment D.may_leave D.left_since L.files L.faults stamp.now disk.old disk.new files.old files.new) answer quiet
        × IsToldUnless (quiet && is_made answer) O.took O.faults E.took E.faults out.old out.new err.old err.new answer put
        × (result ≡ status_of false answer put) }
    // Where they ask for generated files: the same, and a volume that was made was then damaged, and repaired as `xfs_repair` does it
    // without options, each with its line. A line that could not be put ends the call.
    ensures generated { text_asked words.now ≡ None → is_debugger words.now ≡ false → is_maker words.now ≡ true → ForSome (files_asked (make_of (drop 1 words.now)))
        (IsGenerated D.holds D.size D.faults D.write_faults D.reads D.writes D.tells_stops D.moment D.may_leave D.left_since L.files L.faults O.took O.faults E.took E.faults stamp.now (make_of (drop 1 words.now)) disk.old disk.new files.old files.new out.old out.new err.old err.new result) }
    // The disk keeps its number of blocks.
    ensures size { D.size disk.new ≡ D.size disk.old }
    // Where a volume is checked or repaired, the count of failed reads does not fall.
    ensures faults { is_debugger words.now ≡ false → is_maker words.now ≡ false → D.faults disk.old ≤ D.faults disk.new }
    // Nor does that of failed writes and syncs.
    ensures write_faults { is_debugger words.now ≡ false → is_maker words.now ≡ false → D.write_faults disk.old ≤ D.write_faults disk.new }
    // Only `mkfs.xfs` takes files from the library, which keeps them.
    ensures library { is_maker words.now ≡ false → files.new ≡ files.old }
    ensures files { L.files files.new ≡ L.files files.old }
    // Only the debugger takes from the input.
    ensures input { is_debugger words.now ≡ false → input.new ≡ input.old }
{
    match text_asked(words) {
        Some(text) => end_with(out, err, text),
        None => run_tool(rt, alloc, words, disk, files, input, out, err, stamp, gate),
    }
}

/// The same where the words ask for more than a text.
fn run_tool<R: Threads + Sync, D: Disk, L: Library, S: Source, O: Sink, E: Sink, G: Gate>(
    rt: &R,
    alloc: Global,
    words: &[Word],
    disk: &mut D,
    files: &mut L,
    input: &mut S,
    out: &mut O,
    err: &mut E,
    stamp: &Stamp,
    gate: &G,
) -> Status
    ensures answer { is_debugger words.now ≡ false → is_maker words.now ≡ false → (answer : Answer) × (text : Option (List ℕ)) × (put : Result (Unit {0}) Failed)
        × IsRepairing (judged words.now) (disk.new ≡ disk.old) (IsRepair D.holds D.size D.faults D.write_faults D.writes D.tells_stops D.moment D.may_leave D.left_since stamp.now disk.old disk.new) answer
        × IsText (IsLook D.holds D.size D.faults D.write_faults D.writes D.tells_stops D.moment D.may_leave D.left_since stamp.now) disk.old (judged words.now) answer text
        × IsToldBehind O.took O.faults E.took E.faults out.old out.new err.old err.new text answer put
        × (result ≡ status_of (tells_repair words.now) answer put) }
    ensures checked { is_debugger words.now ≡ false → is_maker words.now ≡ false → only_checks (judged words.now) ≡ true
        → OnlyReads D.size D.holds D.write_faults D.writes D.tells_stops D.moment D.may_leave D.left_since disk.old disk.new }
    ensures debugged { is_debugger words.now ≡ true → (answer : Answer) × (finished : ℕ) × (put : Result (Unit {0}) Failed)
        × IsDebugged (debug_of (drop 1 words.now)) ((disk.new ≡ disk.old) × (input.new ≡ input.old) × (out.new ≡ out.old))
        (IsShelled D.holds D.size D.faults D.write_faults D.reads D.writes D.tells_stops D.moment D.may_leave D.left_since S.left S.faults O.took O.faults disk.old disk.new input.old input.new out.old out.new) (D.faults disk.new) answer finished
        × PutsText (E.took err.old) (E.took err.new) (E.faults err.old) (E.faults err.new) (text_of answer) put
        × (result ≡ session_status answer finished put) }
    ensures made { is_debugger words.now ≡ false → is_maker words.now ≡ true → files_asked (make_of (drop 1 words.now)) ≡ None → (answer : Answer) × (quiet : Bool) × (put : Result (Unit {0}) Failed)
        × IsMaking (make_of (drop 1 words.now)) ((disk.new ≡ disk.old) × (files.new ≡ files.old)) (IsMake D.holds D.size D.faults D.write_faults D.reads D.writes D.tells_stops D.moment D.may_leave D.left_since L.files L.faults stamp.now disk.old disk.new files.old files.new) answer quiet
        × IsToldUnless (quiet && is_made answer) O.took O.faults E.took E.faults out.old out.new err.old err.new answer put
        × (result ≡ status_of false answer put) }
    ensures generated { is_debugger words.now ≡ false → is_maker words.now ≡ true → ForSome (files_asked (make_of (drop 1 words.now)))
        (IsGenerated D.holds D.size D.faults D.write_faults D.reads D.writes D.tells_stops D.moment D.may_leave D.left_since L.files L.faults O.took O.faults E.took E.faults stamp.now (make_of (drop 1 words.now)) disk.old disk.new files.old files.new out.old out.new err.old err.new result) }
    ensures size { D.size disk.new ≡ D.size disk.old }
    ensures faults { is_debugger words.now ≡ false → is_maker words.now ≡ false → D.faults disk.old ≤ D.faults disk.new }
    ensures write_faults { is_debugger words.now ≡ false → is_maker words.now ≡ false → D.write_faults disk.old ≤ D.write_faults disk.new }
    ensures library { is_maker words.now ≡ false → files.new ≡ files.old }
    ensures files { L.files files.new ≡ L.files files.old }
    ensures input { is_debugger words.now ≡ false → input.new ≡ input.old }
{
    if is_debugger(words) {
        run_debugger(alloc, &words[1..], disk, input, out, err)
    } else if is_maker(words) {
        run_maker(rt, alloc, &words[1..], disk, files, out, err, stamp, gate)
    } else {
        run_volume(rt, alloc, words, disk, out, err, stamp, gate)
    }
}

/// The same for the words of the other tools.
fn run_volume<R: Threads + Sync, D: Disk, O: Sink, E: Sink, G: Gate>(
    rt: &R,
    alloc: Global,
    words: &[Word],
    disk: &mut D,
    out: &mut O,
    err: &mut E,
    stamp: &Stamp,
    gate: &G,
) -> Status
    ensures answer { (answer : Answer) × (text : Option (List ℕ)) × (put : Result (Unit {0}) Failed)
        × IsRepairing (judged words.now) (disk.new ≡ disk.old) (IsRepair D.holds D.size D.faults D.write_faults D.writes D.tells_stops D.moment D.may_leave D.left_since stamp.now disk.old disk.new) answer
        × IsText (IsLook D.holds D.size D.faults D.write_faults D.writes D.tells_stops D.moment D.may_leave D.left_since stamp.now) disk.old (judged words.now) answer text
        × IsToldBehind O.took O.faults E.took E.faults out.old out.new err.old err.new text answer put
        × (result ≡ status_of (tells_repair words.now) answer put) }
    ensures checked { only_checks (judged words.now) ≡ true → OnlyReads D.size D.holds D.write_faults D.writes D.tells_stops D.moment D.may_leave D.left_since disk.old disk.new }
    ensures size { D.size disk.new ≡ D.size disk.old }
    ensures faults { D.faults disk.old ≤ D.faults disk.new }
    ensures write_faults { D.write_faults disk.old ≤ D.write_faults disk.new }
{
    let call = judge(words);
    let said = answer_to(rt, alloc, &call, disk, stamp, gate);
    match tell_found(out, err, said.groups, said.found, said.answer) {
        Ok(()) => Status {
            code: said.answer.code(tells_repair(&call)),
            answer: said.answer,
            finished: 0,
        },
        Err(Failed) => Status {
            code: 1,
            answer: Answer::OutputFault,
            finished: 0,
        },
    }
}

/// The answer to what the words ask for.
fn answer_to<R: Threads + Sync, D: Disk, G: Gate>(
    rt: &R,
    alloc: Global,
    call: &Call,
    disk: &mut D,
    stamp: &Stamp,
    gate: &G,
) -> Said
    ensures answer { IsRepairing call.now (disk.new ≡ disk.old) (IsRepair D.holds D.size D.faults D.write_faults D.writes D.tells_stops D.moment D.may_leave D.left_since stamp.now disk.old disk.new) result.answer }
    ensures text { IsText (IsLook D.holds D.size D.faults D.write_faults D.writes D.tells_stops D.moment D.may_leave D.left_since stamp.now) disk.old call.now result.answer (explained result.groups result.found) }
    ensures checked { only_checks call.now ≡ true → OnlyReads D.size D.holds D.write_faults D.writes D.tells_stops D.moment D.may_leave D.left_since disk.old disk.new }
    ensures size { D.size disk.new ≡ D.size disk.old }
    ensures faults { D.faults disk.old ≤ D.faults disk.new }
    ensures write_faults { D.write_faults disk.old ≤ D.write_faults disk.new }
{
    match call {
        Call::Repair(words) => answer_repair(rt, alloc, words, disk, stamp, gate),
        Call::Refused { word } => Said {
            answer: Answer::Usage { word: *word },
            groups: None,
            found: None,
        },
    }
}

/// The answer to the words of a repair, and what of it is told in words.
fn answer_repair<R: Threads + Sync, D: Disk, G: Gate>(
    rt: &R,
    alloc: Global,
    words: &RepairWords,
    disk: &mut D,
    stamp: &Stamp,
    gate: &G,
) -> Said
    ensures answer { IsRepairing (Call.Repair words.now) (disk.new ≡ disk.old) (IsRepair D.holds D.size D.faults D.write_faults D.writes D.tells_stops D.moment D.may_leave D.left_since stamp.now disk.old disk.new) result.answer }
    ensures text { IsText (IsLook D.holds D.size D.faults D.write_faults D.writes D.tells_stops D.moment D.may_leave D.left_since stamp.now) disk.old (Call.Repair words.now) result.answer (explained result.groups result.found) }
    ensures checked { only_checks (Call.Repair words.now) ≡ true → OnlyReads D.size D.holds D.write_faults D.writes D.tells_stops D.moment D.may_leave D.left_since disk.old disk.new }
    ensures size { D.size disk.new ≡ D.size disk.old }
    ensures faults { D.faults disk.old ≤ D.faults disk.new }
    ensures write_faults { D.write_faults disk.old ≤ D.write_faults disk.new }
{
    let look = look_before(rt, alloc, words, disk, stamp, gate);
    let answer = Answer::of_outcome(repair(rt, alloc, disk, &words.options(), stamp, gate));
    Said {
        answer,
        groups: look.groups,
        found: told_of(words.verbose, look.found, answer),
    }
}

/// Whether the words ask that a repair end with a status of its own.
fn tells_repair(call: &Call) -> bool
    ensures { result ≡ tells_in call.now }
{
    match call {
        Call::Repair(words) => words.tells_repair,
        Call::Refused { .. } => false,
    }
}
