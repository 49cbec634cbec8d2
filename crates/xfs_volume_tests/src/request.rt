//! What is asked of a small volume, from what might have been found in it.

ghost use Rattle.std.specs.Prelude.{◌≡◌, ◌<◌};

use crate::checks::{equal_at, must, sure};
use crate::items::{Item, items};
use crate::salvage::found_in;
use crate::small_volume::volume;
use crate::text::{Row, line_at, line_count, part_at, part_count, refuse};
use std::alloc::Global;
use std::marker::Brand;
use std::process::Abort;
use std::sync::ledger::{Blank, Ledger};
use std::thread::Threads;
use xfs_collections::Steps;
use xfs_disk::Stamp;
use xfs_geom::{InoRec, RmapRec, Run};
use xfs_log::LogState;
use xfs_place::GroupInodes;
use xfs_render::{SlotBase, SlotWanted};
use xfs_request::{Request, SlotSeen, SlotState, ask, due_cycle, kept_lsns};
use xfs_salvage::{FoundRecords, salvage};
use xfs_volume::{ClusterRec, Records};

/// In a row stand what the case is, the clusters and whether they are recorded, the files, the directories, the entries, the slots
/// that are not free or have a number in the log, the log's head, the numbers in the blocks of files; then what is asked:
/// the slots, the runs that are taken, the chunks of both groups, the inodes in use, the slots that are freed, and the cycle of
/// a blank log.
const ASKED: &str = "\
The primary superblock is lost | 16 true, 20 true | 128 0x41ed 2 6, 129 0x8000 1 0, 130 0x8000 1 0 | 128 128 true | | 128 other 0, 129 other 0, 130 other 0 | 0x100000002 | | | 16 4 inodes 0, 20 4 inodes 0 | 128 0 64 61 0xfffffffffffffff8 | | 3 0 -
The log is not clean, and two slots have numbers in it | 16 true, 20 true | 128 0x41ed 2 6, 129 0x8000 1 0, 130 0x8000 1 0 | 128 128 true | | 128 other 0x700000010, 129 other 0xffffffffffffffff, 130 other 0 | dirty | | | 16 4 inodes 0, 20 4 inodes 0 | 128 0 64 61 0xfffffffffffffff8 | | 3 0 8
Two files claim one block | 16 true, 20 true | 128 0x41ed 2 24, 129 0x8000 1 0, 130 0x8000 1 0, 131 0x81a4 1 4096 24 1 false, 132 0x81a4 1 4096 24 1 false | 128 128 true | 128 131 1 a, 128 132 1 b | 128 other 0, 129 other 0, 130 other 0, 131 other 0, 132 other 0 | 0x100000002 | | 132 free - - | 16 4 inodes 0, 20 4 inodes 0, 24 1 131 0 | 128 0 64 60 0xfffffffffffffff0 | | 4 1 -
The tree of chunks is lost | 16 true, 20 true | 128 0x41ed 2 24, 129 0x8000 1 0, 130 0x8000 1 0, 131 0x81a4 1 4096 24 1 false, 132 0x81a4 1 4096 25 1 false | 128 128 true | 128 131 1 a, 128 132 1 b | 128 other 0, 129 other 0, 130 other 0, 131 other 0, 132 other 0 | 0x100000002 | | | 16 4 inodes 0, 20 4 inodes 0, 24 1 131 0, 25 1 132 0 | 128 0 64 59 0xffffffffffffffe0 | | 5 0 -
The data of a file is a forged cluster | 16 true, 20 true, 24 false | 128 0x41ed 2 15, 129 0x8000 1 0, 130 0x8000 1 0, 131 0x81a4 1 16384 24 4 false, 192 0x81a4 1 0, 193 0x41ed 2 6 | 128 128 true, 193 128 true | 128 131 1 a | 128 other 0, 129 other 0, 130 other 0, 131 other 0, 192 other 0x900000000, 193 other 0 | 0x100000002 | | | 16 4 inodes 0, 20 4 inodes 0, 24 4 131 0 | 128 0 64 60 0xfffffffffffffff0 | | 4 0 -
The first half of a chunk | 16 true | 128 0x41ed 2 6, 129 0x8000 1 0, 130 0x8000 1 0 | 128 128 true | | 128 other 0, 129 other 0, 130 other 0 | 0 | | | 16 4 inodes 0 | 128 0xff00 32 29 0xfffffff8 | | 3 0 -
The second half of a chunk, and a chunk of the second group | 16 true, 28 true, 1544 false, 1548 true | 128 0x41ed 2 6, 129 0x8000 1 0, 130 0x8000 1 0, 224 0x8000 1 0, 12352 0x8000 1 0, 12415 0x8000 1 0 | 128 128 true | 128 224 1 a, 128 12352 1 b, 128 12415 1 c | 128 other 0, 129 other 0, 130 other 0, 224 other 0, 12352 other 0, 12415 other 0 | 0 | | | 16 4 inodes 0, 28 4 inodes 0, 1544 4 inodes 0, 1548 4 inodes 0 | 128 0xff00 32 29 0xfffffff8, 192 0x00ff 32 31 0xfffffffe00000000 | 4160 0 64 62 0x7ffffffffffffffe | 6 0 -
Attributes that do not read are dropped, those of others stay | 16 true | 128 0x41ed 2 6, 129 0x8000 1 0, 130 0x8000 1 0, 131 0x8000 1 0 40 2 false - 43, 132 0x8000 1 0 - 44 1 false | 128 128 true | 128 131 1 a, 128 132 1 b | 128 other 0, 129 other 0, 130 other 0, 131 bare 0, 132 other 0 | 0 | | 131 kept 3 - | 16 4 inodes 0, 40 2 131 0, 43 1 131 0x4000000000000000, 44 1 132 0x8000000000000000 | 128 0xff00 32 27 0xffffffe0 | | 5 0 -
Attributes that do not read, and another number of names | 16 true | 128 0x41ed 2 6, 129 0x8000 1 0, 130 0x8000 1 0, 131 0x8000 1 0 | 128 128 true | 128 131 1 a, 128 131 1 b | 128 other 0, 129 other 0, 130 other 0, 131 bare 0 | 0 | | 131 kept 0 2 | 16 4 inodes 0 | 128 0xff00 32 28 0xfffffff0 | | 4 0 -
Other numbers of names: a directory in the root, a system inode, a file without a name and one with two | 16 true | 128 0x41ed 2 6, 129 0x8000 1 0, 130 0x8000 3 0, 131 0x41ed 2 6, 132 0x8000 1 0, 133 0x8000 1 0 | 128 128 true, 131 128 true | 128 131 2 a, 128 133 1 b, 131 133 1 c | 128 other 0, 129 other 0, 130 other 0, 131 other 0, 132 other 0, 133 other 0 | 0 | | 128 kept - 3, 130 kept - 1, 132 kept - 0, 133 kept - 2 | 16 4 inodes 0 | 128 0xff00 32 26 0xffffffc0 | | 6 0 -
No root: it is made anew | 16 true | 129 0x8000 1 0, 130 0x8000 1 0 | | | 129 other 0, 130 other 0 | 0 | | 128 fresh - - | 16 4 inodes 0 | 128 0xff00 32 29 0xfffffff8 | | 3 0 -
A root that is no directory, and a system inode with data, are made anew, and are not counted as freed | 16 true | 128 0x8000 1 0, 129 0x8000 1 0 40 1 false, 130 0x8000 1 0 | | | 128 other 0x300000000, 129 other 0, 130 other 0 | 0 | | 128 fresh - -, 129 fresh - - | 16 4 inodes 0 | 128 0xff00 32 29 0xfffffff8 | | 3 0 -
A slot that does not read is freed, with its number in the log | 16 true | 128 0x41ed 2 6, 129 0x8000 1 0, 130 0x8000 1 0 | 128 128 true | | 128 other 0, 129 other 0, 130 other 0, 140 other 0x500000000 | 0x100000000 | | 140 free - - | 16 4 inodes 0 | 128 0xff00 32 29 0xfffffff8 | | 3 1 -
A slot that is free keeps its number in the log | 16 true | 128 0x41ed 2 6, 129 0x8000 1 0, 130 0x8000 1 0 | 128 128 true | | 128 other 0, 129 other 0, 130 other 0, 140 free 0x500000000 | 0x4ffffffff | | | 16 4 inodes 0 | 128 0xff00 32 29 0xfffffff8 | | 3 0 6
A number that is the head of the log, and one of all ones | 16 true | 128 0x41ed 2 6, 129 0x8000 1 0, 130 0x8000 1 0 | 128 128 true | | 128 other 0x500000002, 129 other 0, 130 other 0 | 0x500000002 | 0xffffffffffffffff | | 16 4 inodes 0 | 128 0xff00 32 29 0xfffffff8 | | 3 0 -
A block of a file with a number above the head of the log | 16 true | 128 0x41ed 2 6, 129 0x8000 1 0, 130 0x8000 1 0 | 128 128 true | | 128 other 0x500000002, 129 other 0, 130 other 0 | 0x500000002 | 0 0x500000003 | | 16 4 inodes 0 | 128 0xff00 32 29 0xfffffff8 | | 3 0 6
A log that is not clean, and no number | 16 true | 128 0x41ed 2 6, 129 0x8000 1 0, 130 0x8000 1 0 | 128 128 true | | 128 other 0, 129 other 0, 130 other 0 | dirty | | | 16 4 inodes 0 | 128 0xff00 32 29 0xfffffff8 | | 3 0 1
";

/// A slot: the number of its inode, what it reads as, and its number in the log.
impl Item for SlotSeen {
    fn read(rt: &impl Abort, _alloc: Global, row: &mut Row) -> Self {
        SlotSeen {
            ino: row.number(rt),
            state: state_of(rt, row.word()),
            lsn: row.number(rt),
        }
    }
}

fn state_of(rt: &impl Abort, word: &str) -> SlotState {
    match word {
        "free" => SlotState::Free,
        "bare" => SlotState::Bare,
        "other" => SlotState::Other,
        word => refuse(rt, "a word is no state", word),
    }
}

/// All slots of the clusters: as they are told, and else free.
fn seen_of(
    rt: &impl Abort,
    alloc: Global,
    clusters: &[ClusterRec],
    told: &[SlotSeen],
) -> Vec<SlotSeen> {
    let mut slots = Vec::new(alloc);
    for cluster in clusters {
        sure(rt, cluster.block < 2048, "a cluster of the volume");
        for k in 0..32 {
            must(rt, slots.push(slot_of(8 * cluster.block + k, told)));
        }
    }
    slots
}

fn slot_of(ino: u64, told: &[SlotSeen]) -> SlotSeen {
    match told.iter().find(|slot| slot.ino == ino) {
        Some(slot) => *slot,
        None => SlotSeen {
            ino,
            state: SlotState::Free,
            lsn: 0,
        },
    }
}

fn log_of(rt: &impl Abort, text: &str) -> LogState {
    match text {
        "dirty" => LogState::Dirty,
        text => LogState::Clean {
            head: Row::new(text).number(rt),
        },
    }
}

fn base_of(base: &SlotBase) -> &'static str {
    match base {
        SlotBase::Kept => "kept",
        SlotBase::Free => "free",
        SlotBase::Fresh(_) => "fresh",
    }
}

/// Fails where these are not the slots of a text: the inode, what it is made from, the blocks without attributes, the names.
fn tells_slots(rt: &impl Abort, held: &[SlotWanted], text: &str, case: &str) {
    equal_at(rt, held.len(), part_count(text), case);
    for (i, slot) in held.iter().enumerate() {
        tells_slot(rt, slot, part_at(text, i), case);
    }
}

fn tells_slot(rt: &impl Abort, slot: &SlotWanted, mut part: Row, case: &str) {
    part.tells_number(rt, slot.ino, case);
    equal_at(rt, base_of(&slot.base), part.word(), case);
    part.tells_optional(rt, slot.drop_attrs, case);
    part.tells_optional(rt, slot.nlink, case);
    sure(rt, part.is_read(), case);
}

/// The same of the runs that are taken.
fn tells_taken(rt: &impl Abort, alloc: Global, taken: &[Run], text: &str, case: &str) {
    let due: Vec<RmapRec> = items(rt, alloc, text);
    equal_at(rt, taken.len(), due.len(), case);
    let mut dues = due.iter();
    for run in taken {
        if let Some(due) = dues.next() {
            tells_run(rt, run, due, case);
        }
    }
}

fn tells_run(rt: &impl Abort, run: &Run, due: &RmapRec, case: &str) {
    equal_at(rt, run.start, due.start as u64, case);
    equal_at(rt, run.count, due.count as u64, case);
    equal_at(rt, run.owner, due.owner, case);
    equal_at(rt, run.offset_word, due.offset_word, case);
}

/// The same of the chunks of a group.
fn tells_chunks(
    rt: &impl Abort,
    alloc: Global,
    groups: &[GroupInodes],
    ag: usize,
    text: &str,
    case: &str,
) {
    let due: Vec<InoRec> = items(rt, alloc, text);
    sure(rt, ag < groups.len(), case);
    let chunks = groups[ag].records.as_slice();
    equal_at(rt, chunks.len(), due.len(), case);
    equal_at(rt, chunks, due.as_slice(), case);
}

fn stamp() -> Stamp {
    Stamp {
        seconds: 1000,
        nanos: 7,
        generation: 9,
        uuid: [7; 16],
    }
}

/// What is asked of what was found, and the cycle of a blank log.
fn asked_of<R: Threads + Sync + Abort, L: Ledger>(
    rt: &R,
    alloc: Global,
    found: FoundRecords,
    slots: &[SlotSeen],
    log: &LogState,
    lsns: &[u64],
    steps: &mut Steps<L>,
) -> (Request, Option<u32>) {
    let g = volume([7; 16]);
    let Ok(kept) = salvage(rt, alloc, &g, found, steps) else {
        refuse(rt, "memory is wanting", "what is kept");
    };
    let reserved = Records::from_vec(must(rt, Vec::from_slice(alloc, &[3, 5])));
    let asked = must(rt, ask(alloc, &g, &kept, slots, reserved, &stamp()));
    let numbers = must(rt, kept_lsns(alloc, &g, &kept, slots, lsns));
    let cycle = must(rt, due_cycle(numbers.as_slice(), log));
    drop(kept);
    (asked, cycle)
}

fn try_asked<R: Threads + Sync + Abort + AllocGlobal, L: Ledger>(
    rt: &R,
    alloc: Global,
    line: &str,
    steps: &mut Steps<L>,
) {
    let mut row = Row::new(line);
    let case = row.text();
    let found = found_in(rt, alloc, &mut row);
    let told: Vec<SlotSeen> = items(rt, alloc, row.text());
    let slots = seen_of(rt, alloc, found.clusters.as_slice(), told.as_slice());
    let log = log_of(rt, row.text());
    let lsns = row.numbers::<u64>(rt, alloc);
    let (asked, cycle) = asked_of(rt, alloc, found, &slots, &log, &lsns, steps);
    tells_slots(rt, asked.slots.as_slice(), row.text(), case);
    tells_wanted(rt, alloc, &asked, &mut row, case);
    tells_counts(rt, &asked, cycle, &mut row, case);
    drop(asked);
}

/// Fails where not so many files and slots are told, and this cycle of a blank log.
fn tells_counts(rt: &impl Abort, asked: &Request, cycle: Option<u32>, row: &mut Row, case: &str) {
    row.tells_number(rt, asked.kept, case);
    row.tells_number(rt, asked.cleared, case);
    row.tells_optional(rt, cycle, case);
    sure(rt, row.is_read(), case);
}

fn tells_wanted(
    rt: &(impl Abort + AllocGlobal),
    alloc: Global,
    asked: &Request,
    row: &mut Row,
    case: &str,
) {
    let wanted = &asked.wanted;
    tells_taken(rt, alloc, wanted.taken.as_slice(), row.text(), case);
    tells_chunks(rt, alloc, wanted.inodes.as_slice(), 0, row.text(), case);
    tells_chunks(rt, alloc, wanted.inodes.as_slice(), 1, row.text(), case);
    equal_at(rt, wanted.inodes.as_slice().len(), 2, case);
    equal_at(rt, wanted.reserved.as_slice().len(), 2, case);
}

fn try_all<R: Threads + Sync + Abort + AllocGlobal, L: Ledger>(rt: &R, alloc: Global, blank: Blank)
    requires name { blank.name ≡ L.name }
    requires parts { blank.parts ≡ L.parts }
    requires some { 0 < blank.parts }
{
    let mut steps = Steps::<L>::from_blank(blank);
    for i in 0..line_count(ASKED) {
        let line = line_at(ASKED, i);
        try_asked(rt, alloc, line, &mut steps);
    }
}

#[test]
fn small_requests(rt: HostRuntime) {
    try_all::<HostRuntime, Brand>(&rt, rt.alloc(), Blank::new(1));
}
