//! Explanations, put to a stream.

ghost use Rattle.std.specs.Prelude.{◌≡◌, ◌++◌};
ghost use Rattle.xfs_texts.specs.Explaining.{chunk_text, due_text, explanation_text, fork_name, held_text, inode_in, line_of, object_text, owner_name, owner_text, piece_text, run_text, there, user_text, written_name};
ghost use Rattle.xfs_texts.specs.Lines.{PutsText};
ghost use Rattle.xfs_texts.specs.Private.Labels.{explained_as};

use crate::explanation::{Explanation, Piece, explained};
use crate::lines::{Number, put_line, put_text};
use xfs_disk::{Failed, Sink};
use xfs_image::Finding;

/// What stands for no record and no owner.
const NOTHING_THERE: u128 = u128::MAX;

/// The least of the owners that are no files, below 0 in two's complement.
const LEAST_OWNER: u128 = 18_446_744_073_709_551_609;

const TWO_32: u128 = 1 << 32;

const TWO_61: u128 = 1 << 61;

const TWO_64: u128 = 1 << 64;

/// Puts a line that says in words what was found, with both numbers in their own terms, and what is usually done about it. The groups are
/// those that the primary superblock states, where they are known: without them it is not told whose a counter is.
#[tactic(auto, unfolding(crate::specs::Explaining::explanation_text))]
pub fn put_explanation<S: Sink>(
    sink: &mut S,
    groups: Option<u32>,
    finding: &Finding,
) -> Result<(), Failed>
    ensures { PutsText (S.took sink.old) (S.took sink.new) (S.faults sink.old) (S.faults sink.new) (explanation_text groups finding.now) result }
{
    put_explained(sink, &explained(groups, finding))
}

/// Puts the line of an explanation.
fn put_explained<S: Sink>(sink: &mut S, explained: &Explanation) -> Result<(), Failed>
    ensures { PutsText (S.took sink.old) (S.took sink.new) (S.faults sink.old) (S.faults sink.new) (line_of (explained_as explained.now)) result }
{
    match put_text(sink, "xfs: ") {
        Ok(()) => {}
        Err(Failed) => return Err(Failed),
    }
    put_object(sink, explained)
}

/// Puts the object, and what stands behind it.
fn put_object<S: Sink>(sink: &mut S, explained: &Explanation) -> Result<(), Failed>
    ensures { PutsText (S.took sink.old) (S.took sink.new) (S.faults sink.old) (S.faults sink.new) (object_text (explained_as explained.now)) result }
{
    match put_pair(sink, explained.object, explained.place) {
        Ok(()) => {}
        Err(Failed) => return Err(Failed),
    }
    put_held(sink, explained)
}

/// Puts what is held, and what stands behind it.
fn put_held<S: Sink>(sink: &mut S, explained: &Explanation) -> Result<(), Failed>
    ensures { PutsText (S.took sink.old) (S.took sink.new) (S.faults sink.old) (S.faults sink.new) (held_text (explained_as explained.now)) result }
{
    match put_pair(sink, explained.says, explained.held) {
        Ok(()) => {}
        Err(Failed) => return Err(Failed),
    }
    put_due(sink, explained)
}

/// Puts what is due, and what is usually done.
fn put_due<S: Sink>(sink: &mut S, explained: &Explanation) -> Result<(), Failed>
    ensures { PutsText (S.took sink.old) (S.took sink.new) (S.faults sink.old) (S.faults sink.new) (due_text (explained_as explained.now)) result }
{
    match put_pair(sink, explained.between, explained.due) {
        Ok(()) => {}
        Err(Failed) => return Err(Failed),
    }
    put_text(sink, explained.advice)
}

/// Puts a text and a number.
fn put_pair<S: Sink>(sink: &mut S, text: &str, piece: Piece) -> Result<(), Failed>
    ensures { PutsText (S.took sink.old) (S.took sink.new) (S.faults sink.old) (S.faults sink.new) (text.now ++ piece_text piece) result }
{
    match put_text(sink, text) {
        Ok(()) => {}
        Err(Failed) => return Err(Failed),
    }
    put_piece(sink, piece)
}

/// Puts a number in its own terms.
fn put_piece<S: Sink>(sink: &mut S, piece: Piece) -> Result<(), Failed>
    ensures { PutsText (S.took sink.old) (S.took sink.new) (S.faults sink.old) (S.faults sink.new) (piece_text piece) result }
{
    match piece {
        Piece::Nothing => put_line(sink, &[], ""),
        Piece::Count(count) => put_line(sink, &[("", Number::Large(count))], ""),
        Piece::Run(run) => put_run(sink, run),
        Piece::Chunk(chunk) => put_chunk(sink, chunk),
        Piece::Owner(owner) => put_owner(sink, owner),
        Piece::Sequence(number) => {
            let numbers = [
                ("cycle ", Number::Large(number / TWO_32)),
                (" sector ", Number::Large(number % TWO_32)),
            ];
            put_line(sink, &numbers, "")
        }
        Piece::Chain(place) => {
            let numbers = [
                ("", Number::Large(place / 64)),
                (", number ", Number::Large(place % 64)),
            ];
            put_line(sink, &numbers, "")
        }
    }
}

/// What a number stands for, where it stands for anything.
fn there(number: u128) -> Option<u128>
    ensures { result ≡ there number }
{
    if number == NOTHING_THERE {
        None
    } else {
        Some(number)
    }
}

/// Puts a run of free blocks.
fn put_run<S: Sink>(sink: &mut S, run: u128) -> Result<(), Failed>
    ensures { PutsText (S.took sink.old) (S.took sink.new) (S.faults sink.old) (S.faults sink.new) (run_text (there run)) result }
{
    match there(run) {
        None => put_line(sink, &[], "no record"),
        Some(run) => {
            let numbers = [
                ("start ", Number::Large(run / TWO_32)),
                (" count ", Number::Large(run % TWO_32)),
            ];
            put_line(sink, &numbers, "")
        }
    }
}

/// Puts a chunk of inodes.
fn put_chunk<S: Sink>(sink: &mut S, chunk: u128) -> Result<(), Failed>
    ensures { PutsText (S.took sink.old) (S.took sink.new) (S.faults sink.old) (S.faults sink.new) (chunk_text (there chunk)) result }
{
    match there(chunk) {
        None => put_line(sink, &[], "no record"),
        Some(chunk) => {
            let numbers = [
                ("startino ", Number::Large(chunk / (1 << 96))),
                (
                    " holemask 0x",
                    Number::Hexadecimal((chunk / (1 << 80) % (1 << 16)) as u64),
                ),
                (" count ", Number::Large(chunk / (1 << 72) % 256)),
                (" freecount ", Number::Large(chunk / TWO_64 % 256)),
                (" free 0x", Number::Hexadecimal((chunk % TWO_64) as u64)),
            ];
            put_line(sink, &numbers, "")
        }
    }
}

/// Puts an owner of a block.
fn put_owner<S: Sink>(sink: &mut S, owner: u128) -> Result<(), Failed>
    ensures { PutsText (S.took sink.old) (S.took sink.new) (S.faults sink.old) (S.faults sink.new) (owner_text (there owner)) result }
{
    match there(owner) {
        None => put_line(sink, &[], "no owner"),
        Some(owner) => put_user(sink, owner),
    }
}

/// Puts what an owner with its offset word uses a block for.
fn put_user<S: Sink>(sink: &mut S, owner: u128) -> Result<(), Failed>
    ensures { PutsText (S.took sink.old) (S.took sink.new) (S.faults sink.old) (S.faults sink.new) (user_text owner (inode_in owner)) result }
{
    match inode_in(owner) {
        None => put_line(sink, &[], owner_name(owner / TWO_64)),
        Some(ino) => {
            let numbers = [
                ("inode ", Number::Large(ino)),
                (
                    fork_name(owner / (1 << 62) % 4),
                    Number::Large(owner % TWO_61),
                ),
            ];
            put_line(sink, &numbers, written_name(owner / TWO_61 % 2))
        }
    }
}

/// The inode that an owner is, where it is a file.
fn inode_in(owner: u128) -> Option<u128>
    ensures { result ≡ inode_in owner }
{
    if owner / TWO_64 < LEAST_OWNER {
        Some(owner / TWO_64)
    } else {
        None
    }
}

/// The owners that are no files.
fn owner_name(owner: u128) -> &'static str
    ensures { result.now ≡ owner_name owner }
{
    match owner {
        18_446_744_073_709_551_613 => "the headers of its group",
        18_446_744_073_709_551_612 => "the log",
        18_446_744_073_709_551_611 => "the trees of space and the free list of its group",
        18_446_744_073_709_551_610 => "the trees of inodes of its group",
        18_446_744_073_709_551_609 => "inodes",
        _ => "an owner of no kind",
    }
}

/// Where a block of a file belongs.
fn fork_name(bits: u128) -> &'static str
    ensures { result.now ≡ fork_name bits }
{
    match bits {
        0 => ", offset ",
        1 => ", extent tree, offset ",
        2 => ", attributes, offset ",
        _ => ", extent tree of attributes, offset ",
    }
}

/// Whether a block of a file was written.
fn written_name(bit: u128) -> &'static str
    ensures { result.now ≡ written_name bit }
{
    if bit == 0 { "" } else { ", not written" }
}
