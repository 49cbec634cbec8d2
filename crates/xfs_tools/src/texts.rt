//! The line of each answer. Putting one takes no memory.

ghost use Rattle.std.specs.Prelude.{◌≡◌, ◌++◌, ◌∷◌, [], Result, codes, false};
ghost use Rattle.xfs_disk.specs.declared.failed.Failed.{Failed};
ghost use Rattle.xfs_texts.specs.Lines.{PutsText, line};
ghost use Rattle.xfs_tools.specs.Answers.{IsTold, output_fault, status_of};
ghost use Rattle.xfs_tools.specs.Generating.{damaged_text, generated_text, made_lines};
ghost use Rattle.xfs_tools.specs.Texts.{finding_text, law_text, made_numbers, made_text, no_room_text, summary_text, text_of};
ghost use Rattle.uuid.specs.Text.{hyphenated_text};

use crate::answer::{Answer, Status};
use uuid::Uuid;
use xfs_disk::{Failed, Sink};
use xfs_generator::directory_count;
use xfs_image::Finding;
use xfs_mend::Summary;
use xfs_mkfs::MadeSummary;
use xfs_place::Unplaced;
use xfs_texts::{Number, put_help, put_line, put_text, put_version};
use xfs_volume::Law;

/// Puts the answer's line to the stream that it goes to.
pub fn tell<O: Sink, E: Sink>(out: &mut O, err: &mut E, answer: Answer) -> Result<(), Failed>
    ensures { IsTold O.took O.faults E.took E.faults out.old out.new err.old err.new answer result }
{
    if answer.is_for_out() {
        put_answer(out, answer)
    } else {
        put_answer(err, answer)
    }
}

/// Puts the answer's line to the stream that it goes to, and ends the call with its status.
pub(crate) fn end_with<O: Sink, E: Sink>(out: &mut O, err: &mut E, answer: Answer) -> Status
    ensures { (put : Result (Unit {0}) Failed) × IsTold O.took O.faults E.took E.faults out.old out.new err.old err.new answer put × (result ≡ status_of false answer put) }
{
    match tell(out, err, answer) {
        Ok(()) => Status {
            code: answer.code(false),
            answer,
            finished: 0,
        },
        Err(Failed) => output_fault(),
    }
}

/// The status where a line could not be put.
pub(crate) fn output_fault() -> Status
    ensures { result ≡ output_fault }
{
    Status {
        code: 1,
        answer: Answer::OutputFault,
        finished: 0,
    }
}

/// Puts the line of an answer.
pub fn put_answer<S: Sink>(sink: &mut S, answer: Answer) -> Result<(), Failed>
    ensures { PutsText (S.took sink.old) (S.took sink.new) (S.faults sink.old) (S.faults sink.new) (text_of answer) result }
{
    match answer {
        Answer::Usage { word } => put_one(sink, "xfs: usage: word ", word as u64),
        Answer::NoGeometry => put_plain(sink, "xfs: no geometry\n"),
        Answer::Unsupported { word, bits } => put_unsupported(sink, word, bits),
        Answer::DirtyLog => put_plain(sink, "xfs: dirty log\n"),
        Answer::TooLarge { what, count } => put_too_large(sink, what, count),
        Answer::UnsupportedFile { ino, what } => put_unsupported_file(sink, ino, what),
        Answer::Clean => put_plain(sink, "clean\n"),
        Answer::Damaged(finding) => put_finding(sink, finding),
        Answer::Repaired(summary) => put_summary(sink, summary),
        Answer::BadOption { word, item } => put_bad_option(sink, word, item),
        Answer::TooSmall { what } => put_one(sink, "xfs: too small: ", what as u64),
        Answer::HasVolume => put_plain(sink, "xfs: has a volume\n"),
        Answer::BadProto { line, reason } => put_bad_proto(sink, line, reason),
        Answer::NoFile { line } => put_one(sink, "xfs: no file: line ", line),
        Answer::LibraryFault => put_plain(sink, "xfs: library fault\n"),
        Answer::NoRoom(place) => put_no_room(sink, place),
        Answer::Made(made) => put_made(sink, &made),
        Answer::ReadFault { faults } => put_one(sink, "xfs: read fault: ", faults),
        Answer::WriteFault { written } => put_write_fault(sink, written),
        Answer::OutputFault | Answer::Done => put_plain(sink, ""),
        Answer::NoMemory => put_plain(sink, "xfs: no memory\n"),
        Answer::InputFault => put_plain(sink, "xfs: input fault\n"),
        Answer::InputLong => put_plain(sink, "xfs: input too long\n"),
        Answer::Help(tool) => put_help(sink, tool),
        Answer::Version(tool) => put_version(sink, tool),
    }
}

/// Puts a number with a label before it, and the end of its line.
fn put_one<S: Sink>(sink: &mut S, label: &str, number: u64) -> Result<(), Failed>
    ensures { PutsText (S.took sink.old) (S.took sink.new) (S.faults sink.old) (S.faults sink.new) (line ((label.now, Number.Decimal number) ∷ []) (codes "\n")) result }
{
    put_line(sink, &[(label, Number::Decimal(number))], "\n")
}

/// Puts the line of a write that failed.
fn put_write_fault<S: Sink>(sink: &mut S, written: u64) -> Result<(), Failed>
    ensures { PutsText (S.took sink.old) (S.took sink.new) (S.faults sink.old) (S.faults sink.new) (text_of (Answer.WriteFault written)) result }
{
    let number = Number::Decimal(written);
    put_line(sink, &[("xfs: write fault after ", number)], " blocks\n")
}

/// Puts a line without numbers.
fn put_plain<S: Sink>(sink: &mut S, text: &str) -> Result<(), Failed>
    ensures { PutsText (S.took sink.old) (S.took sink.new) (S.faults sink.old) (S.faults sink.new) (line [] text.now) result }
{
    put_line(sink, &[], text)
}

/// Puts two numbers with a label before each, and the end of their line.
fn put_two<S: Sink>(
    sink: &mut S,
    label: &str,
    number: Number,
    next: &str,
    behind: Number,
) -> Result<(), Failed>
    ensures { PutsText (S.took sink.old) (S.took sink.new) (S.faults sink.old) (S.faults sink.new) (line ((label.now, number) ∷ (next.now, behind) ∷ []) (codes "\n")) result }
{
    put_line(sink, &[(label, number), (next, behind)], "\n")
}

/// Puts the line of a protofile that is none.
fn put_bad_proto<S: Sink>(sink: &mut S, line: u64, reason: u8) -> Result<(), Failed>
    ensures { PutsText (S.took sink.old) (S.took sink.new) (S.faults sink.old) (S.faults sink.new) (text_of (Answer.BadProto line reason)) result }
{
    put_two(
        sink,
        "xfs: bad protofile: line ",
        Number::Decimal(line),
        " reason ",
        Number::Decimal(reason as u64),
    )
}

/// Puts the line of a refused feature word.
fn put_unsupported<S: Sink>(sink: &mut S, word: u8, bits: u64) -> Result<(), Failed>
    ensures { PutsText (S.took sink.old) (S.took sink.new) (S.faults sink.old) (S.faults sink.new) (text_of (Answer.Unsupported word bits)) result }
{
    put_two(
        sink,
        "xfs: unsupported: word ",
        Number::Decimal(word as u64),
        " bits 0x",
        Number::Hexadecimal(bits),
    )
}

/// Puts the line of a volume that is too large.
fn put_too_large<S: Sink>(sink: &mut S, what: u8, count: u64) -> Result<(), Failed>
    ensures { PutsText (S.took sink.old) (S.took sink.new) (S.faults sink.old) (S.faults sink.new) (text_of (Answer.TooLarge what count)) result }
{
    put_two(
        sink,
        "xfs: too large: ",
        Number::Decimal(what as u64),
        " count ",
        Number::Decimal(count),
    )
}

/// Puts the line of a file that is not supported.
fn put_unsupported_file<S: Sink>(sink: &mut S, ino: u64, what: u8) -> Result<(), Failed>
    ensures { PutsText (S.took sink.old) (S.took sink.new) (S.faults sink.old) (S.faults sink.new) (text_of (Answer.UnsupportedFile ino what)) result }
{
    put_two(
        sink,
        "xfs: unsupported: inode ",
        Number::Decimal(ino),
        " feature ",
        Number::Decimal(what as u64),
    )
}

/// Puts the line of a bad item of a word.
fn put_bad_option<S: Sink>(sink: &mut S, word: usize, item: u8) -> Result<(), Failed>
    ensures { PutsText (S.took sink.old) (S.took sink.new) (S.faults sink.old) (S.faults sink.new) (text_of (Answer.BadOption word item)) result }
{
    put_two(
        sink,
        "xfs: bad option: word ",
        Number::Decimal(word as u64),
        " item ",
        Number::Decimal(item as u64),
    )
}

/// Puts the line of what finds no room.
fn put_no_room<S: Sink>(sink: &mut S, place: Unplaced) -> Result<(), Failed>
    ensures { PutsText (S.took sink.old) (S.took sink.new) (S.faults sink.old) (S.faults sink.new) (no_room_text place) result }
{
    match place {
        Unplaced::Group(ag) => put_one(sink, "xfs: no room: group ", ag as u64),
        Unplaced::Directory(ino) => put_one(sink, "xfs: no room: directory ", ino),
        Unplaced::File(ino) => put_one(sink, "xfs: no room: file ", ino),
        Unplaced::Chunk => put_plain(sink, "xfs: no room: chunk\n"),
        Unplaced::LostFound => put_plain(sink, "xfs: no room: lost+found\n"),
    }
}

/// Puts the line of a volume that was made.
fn put_made<S: Sink>(sink: &mut S, made: &MadeSummary) -> Result<(), Failed>
    ensures { PutsText (S.took sink.old) (S.took sink.new) (S.faults sink.old) (S.faults sink.new) (made_text made.now) result }
{
    match put_made_numbers(sink, made) {
        Ok(()) => {}
        Err(Failed) => return Err(Failed),
    }
    put_identifier_line(sink, made.uuid)
}

/// Puts the lines of a volume that was made with generated files; its own is left out where it is to be quiet.
pub(crate) fn put_made_lines<S: Sink>(
    sink: &mut S,
    quiet: bool,
    made: &MadeSummary,
    files: u32,
) -> Result<(), Failed>
    ensures { PutsText (S.took sink.old) (S.took sink.new) (S.faults sink.old) (S.faults sink.new) (made_lines quiet made.now files) result }
{
    if quiet {
        return put_generated(sink, files);
    }
    match put_made(sink, made) {
        Ok(()) => {}
        Err(Failed) => return Err(Failed),
    }
    put_generated(sink, files)
}

/// Puts the line of files that were generated.
fn put_generated<S: Sink>(sink: &mut S, files: u32) -> Result<(), Failed>
    ensures { PutsText (S.took sink.old) (S.took sink.new) (S.faults sink.old) (S.faults sink.new) (generated_text files) result }
{
    put_two(
        sink,
        "generated: files=",
        Number::Decimal(files as u64),
        " directories=",
        Number::Decimal(directory_count(files)),
    )
}

/// Puts the line of a block that was written as zeros.
pub(crate) fn put_damaged<S: Sink>(sink: &mut S, place: u64) -> Result<(), Failed>
    ensures { PutsText (S.took sink.old) (S.took sink.new) (S.faults sink.old) (S.faults sink.new) (damaged_text place) result }
{
    put_one(sink, "damaged: block=", place)
}

/// Puts the numbers of a volume that was made, and what stands before its identifier.
fn put_made_numbers<S: Sink>(sink: &mut S, made: &MadeSummary) -> Result<(), Failed>
    ensures { PutsText (S.took sink.old) (S.took sink.new) (S.faults sink.old) (S.faults sink.new) (line (made_numbers made.now) (codes " uuid=")) result }
{
    let numbers = [
        ("made: blocks=", Number::Decimal(made.dblocks)),
        (" groups=", Number::Decimal(made.agcount as u64)),
        (" log=", Number::Decimal(made.log)),
        ("+", Number::Decimal(made.logblocks as u64)),
        (" root=", Number::Decimal(made.rootino)),
    ];
    put_line(sink, &numbers, " uuid=")
}

/// Puts an identifier, and ends the line.
fn put_identifier_line<S: Sink>(sink: &mut S, identifier: [u8; 16]) -> Result<(), Failed>
    ensures { PutsText (S.took sink.old) (S.took sink.new) (S.faults sink.old) (S.faults sink.new) (hyphenated_text 97 identifier ++ codes "\n") result }
{
    match put_identifier(sink, identifier) {
        Ok(()) => {}
        Err(Failed) => return Err(Failed),
    }
    put_text(sink, "\n")
}

/// Puts an identifier, in lower case.
fn put_identifier<S: Sink>(sink: &mut S, identifier: [u8; 16]) -> Result<(), Failed>
    ensures { PutsText (S.took sink.old) (S.took sink.new) (S.faults sink.old) (S.faults sink.new) (hyphenated_text 97 identifier) result }
{
    let mut buffer = Uuid::encode_buffer();
    let hyphenated = Uuid::from_bytes(identifier).hyphenated();
    put_text(sink, hyphenated.encode_lower(&mut buffer))
}

/// Puts the line of a finding.
fn put_finding<S: Sink>(sink: &mut S, finding: Finding) -> Result<(), Failed>
    ensures { PutsText (S.took sink.old) (S.took sink.new) (S.faults sink.old) (S.faults sink.new) (finding_text finding) result }
{
    match finding {
        Finding::Part { part, place } => put_part(sink, part, place),
        Finding::Law(law) => put_law(sink, &law),
    }
}

/// Puts the line of a part that is not right.
fn put_part<S: Sink>(sink: &mut S, part: u8, place: u64) -> Result<(), Failed>
    ensures { PutsText (S.took sink.old) (S.took sink.new) (S.faults sink.old) (S.faults sink.new) (finding_text (Finding.Part part place)) result }
{
    put_two(
        sink,
        "damaged: part ",
        Number::Decimal(part as u64),
        " at ",
        Number::Decimal(place),
    )
}

/// Puts the line of a broken law.
fn put_law<S: Sink>(sink: &mut S, law: &Law) -> Result<(), Failed>
    ensures { PutsText (S.took sink.old) (S.took sink.new) (S.faults sink.old) (S.faults sink.new) (law_text law.now) result }
{
    let numbers = [
        ("damaged: law ", Number::Decimal(law.law as u64)),
        (" at ", Number::Decimal(law.place)),
        (", held ", Number::Large(law.held)),
        (", due ", Number::Large(law.due)),
    ];
    put_line(sink, &numbers, "\n")
}

/// Puts the line of a repair's summary.
fn put_summary<S: Sink>(sink: &mut S, summary: Summary) -> Result<(), Failed>
    ensures { PutsText (S.took sink.old) (S.took sink.new) (S.faults sink.old) (S.faults sink.new) (summary_text summary) result }
{
    match summary {
        Summary::Backups { count } => put_one(sink, "repaired: backups=", count),
        Summary::Rebuilt {
            blocks,
            kept,
            cleared,
            orphans,
        } => {
            let numbers = [
                ("repaired: blocks=", Number::Decimal(blocks)),
                (" kept=", Number::Decimal(kept)),
                (" cleared=", Number::Decimal(cleared)),
                (" orphans=", Number::Decimal(orphans)),
            ];
            put_line(sink, &numbers, "\n")
        }
    }
}
