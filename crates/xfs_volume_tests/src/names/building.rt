//! The directories that are built of small worlds.

ghost use Rattle.xfs_names.specs.Built.{CanBeBuilt};

use super::wanted::wanted_of;
use crate::checks::{equal_at, must, sure};
use crate::items::{Item, items};
use crate::text::{Row, line_at, line_count, part_at, part_count};
use std::alloc::Global;
use std::process::Abort;
use xfs_disk::NoMemory;
use xfs_names::{BuiltDirectory, ForkRoom, WantedNames, build_all};
use xfs_volume::Records;

/// In a row stand what the world is, as in `WORLDS`, and how many bytes the data forks of some of its directories may have;
/// then the directories that are built, each with its data, index and free blocks, the bytes of their short forms, and of those
/// that have blocks some bytes of the first one, each from a byte offset on.
const BUILT: &str = "\
nothing is built | 128 4, 131 8 | 128 131 1 a | 128 128 true | 128 | Unneeded | 132 | | | |
a short form | 128 4, 140 8, 141 8, 150 4 | 128 150 2 d, 150 140 1 x, 150 141 1 y | 128 128 true, 150 128 false | 128 | Unneeded | 131 | | 150 0 0 0 | 0200 00000080 01 0060 78 01 0000008c 01 0070 79 01 0000008d |
a fork that has just room for it | 128 4, 140 8, 141 8, 150 4 | 128 150 2 d, 150 140 1 x, 150 141 1 y | 128 128 true, 150 128 false | 128 | Unneeded | 131 | 150 24 | 150 0 0 0 | 0200 00000080 01 0060 78 01 0000008c 01 0070 79 01 0000008d |
a fork that has no room for it | 128 4, 140 8, 141 8, 150 4 | 128 150 2 d, 150 140 1 x, 150 141 1 y | 128 128 true, 150 128 false | 128 | Unneeded | 131 | 128 336, 150 23 | 150 1 0 0 | | 0 58444233, 64 0000000000000096 01 2e 02, 78 0040, 80 0000000000000080 02 2e2e 02, 94 0050, 96 000000000000008c 01 78 01, 110 0060, 112 000000000000008d 01 79 01, 126 0070, 128 ffff, 4088 00000004 00000000
a cycle of two | 128 4, 150 4, 151 4 | 150 151 2 x, 151 150 2 y | 128 128 true, 150 151 true, 151 150 true | 128 | Slot(131) | 131 | 151 5 | 128 0 0 0, 131 0 0 0, 150 0 0 0, 151 1 0 0 | 0100 00000080 0a 0060 6c6f73742b666f756e64 02 00000083, 0100 00000080 03 0060 313530 02 00000096, 0100 00000083 01 0060 78 02 00000097 | 64 0000000000000097 01 2e 02, 80 0000000000000096 02 2e2e 02, 96 ffff, 4088 00000002 00000000
";

#[test]
fn built_directories(rt: HostRuntime) {
    for i in 0..line_count(BUILT) {
        let line = line_at(BUILT, i);
        try_building(&rt, line);
    }
}

fn try_building(rt: &(impl Abort + AllocGlobal), line: &str) {
    let alloc = rt.alloc();
    let mut row = Row::new(line);
    let case = row.text();
    let wanted = wanted_of(rt, &mut row, case);
    let rooms = items::<ForkRoom>(rt, alloc, row.text());
    let built = must(rt, build_in_order(alloc, &wanted, rooms));
    tells_blocks(rt, built.as_slice(), row.text(), case);
    tells_shorts(rt, built.as_slice(), row.text(), case);
    tells_bytes(rt, built.as_slice(), row.text(), case);
    drop((built, wanted));
}

/// What is built, with the rooms in the order of their directories.
fn build_in_order(
    alloc: Global,
    wanted: &WantedNames,
    rooms: Vec<ForkRoom>,
) -> Result<Records<BuiltDirectory>, NoMemory>
    requires { CanBeBuilt wanted.now }
{
    let mut rooms = rooms;
    rooms.sort_by_key(|room| room.ino)?;
    build_all(alloc, wanted, &rooms)
}

/// The room of a fork: the directory, and how many bytes.
impl Item for ForkRoom {
    fn read(rt: &impl Abort, _alloc: Global, row: &mut Row) -> Self {
        ForkRoom {
            ino: row.number(rt),
            bytes: row.number(rt),
        }
    }
}

/// Fails where not these directories with so many blocks were built.
fn tells_blocks(rt: &impl Abort, built: &[BuiltDirectory], due: &str, case: &str) {
    equal_at(rt, built.len(), part_count(due), case);
    for (i, directory) in built.iter().enumerate() {
        tells_counts(rt, directory, part_at(due, i), case);
    }
}

fn tells_counts(rt: &impl Abort, directory: &BuiltDirectory, mut due: Row, case: &str) {
    due.tells_number(rt, directory.ino, case);
    due.tells_number(rt, directory.image.data_blocks, case);
    due.tells_number(rt, directory.image.index_blocks, case);
    due.tells_number(rt, directory.image.free_blocks, case);
}

/// Fails where these are not the short forms of those that have one.
fn tells_shorts(rt: &(impl Abort + AllocGlobal), built: &[BuiltDirectory], due: &str, case: &str) {
    let mut at: usize = 0;
    for directory in built {
        if directory.image.short.is_empty() {
            continue;
        }
        sure(rt, at < part_count(due), case);
        let mut row = part_at(due, at);
        let bytes = row.bytes(rt, rt.alloc());
        sure(
            rt,
            directory.image.short.as_slice() == bytes.as_slice(),
            case,
        );
        at = at.saturating_add(1);
    }
    equal_at(rt, at, part_count(due), case);
}

/// Fails where the first block of one that has blocks does not hold these bytes.
fn tells_bytes(rt: &(impl Abort + AllocGlobal), built: &[BuiltDirectory], due: &str, case: &str) {
    for directory in built {
        let blocks = &directory.image.blocks;
        if blocks.len() > 0 {
            for i in 0..part_count(due) {
                let part = part_at(due, i);
                tells_part(rt, blocks.view(0), part, case);
            }
        }
    }
}

fn tells_part(rt: &(impl Abort + AllocGlobal), block: &[u8], mut part: Row, case: &str) {
    let at: usize = part.number(rt);
    let bytes = part.bytes(rt, rt.alloc());
    let held = block.get(at..).and_then(|rest| rest.get(..bytes.len()));
    sure(rt, held == Some(bytes.as_slice()), case);
}
