//! Blocks that objects leave to the trees of their group.

ghost use Rattle.std.specs.Prelude.{◌≡◌, ◌≤◌, All, IfOk};
ghost use Rattle.xfs_place.specs.Objects.{IsAsk};

use super::groups::{SMALLEST, SparedBlocks, shaped, spare_small};
use super::objects::object;
use super::pieces::{data_of, reserved_of, tells_placed};
use super::*;
use crate::checks::{equal, must, sure};
use crate::text::{Row, line_at, line_count, refuse, tells};
use std::process::Abort;

/// Whether the volume is made anew, the rows of blocks (start and blocks) that are all of its pool, and from which AG block on those of
/// each group are spared: 22 blocks, or 31.
const SPARED: &str = "\
0 | 1 15 24 1000 1025 5 1542 506 | [1002, 1002]
1 | 1 15 24 1000 1025 5 1542 506 | [993, 993]
0 | 1 15 100 40 1600 22 | [118, 0]
0 | 1 15 100 10 200 22 1600 23 | [110, 577]
0 | | [0, 0]
";

#[test]
fn spared_blocks(rt: HostRuntime) {
    for i in 0..line_count(SPARED) {
        let line = line_at(SPARED, i);
        try_spared(&rt, line);
    }
}

fn try_spared(rt: &(impl Abort + AllocGlobal), line: &str) {
    let mut row = Row::new(line);
    let anew = row.number::<u32>(rt) == 1;
    let reserved = reserved_of(rt, &mut row);
    match spare(rt.alloc(), &shaped(&SMALLEST), &[], &reserved, anew) {
        Ok(spared) => tells(rt, &spared.as_slice(), row.text(), line),
        Err(_) => refuse(rt, "memory is wanting", line),
    }
}

/// The rows of blocks (start and blocks) that are all of the pool, from which AG block on those of each group are spared, whether objects
/// may take them, the lengths of the asks of an object, how many runs they may take, and what stands: the runs and how many each ask has,
/// or what finds no room.
const BESIDE: &str = "\
1 15 1025 5 100 10 200 5 | 106 | 0 | 6 | 1 | [(100, 6, 0)] | [1]
1 15 1025 5 100 10 200 5 | 106 | 0 | 7 | 1 | File(133)
1 15 1025 5 100 10 200 5 | 106 | 0 | 7 | 2 | File(133)
1 15 1025 5 100 10 200 5 | 106 | 1 | 7 | 1 | [(100, 7, 0)] | [1]
1 15 1025 5 100 10 200 5 | 106 | 1 | 6 5 | 2 | [(100, 6, 0), (200, 5, 0)] | [1, 1]
1 15 1025 5 100 10 200 5 | 103 | 1 | 2 4 | 2 | [(100, 2, 0), (102, 4, 0)] | [1, 1]
1 15 1025 5 100 10 200 5 | 103 | 1 | 2 4 | 1 | File(133)
1 15 1025 5 100 5 1600 5 | 0 | 1 | 3 | 1 | [(1600, 3, 0)] | [1]
1 15 1025 5 100 5 1600 5 | 0 | 1 | 6 | 2 | [(100, 5, 0), (1600, 1, 5)] | [2]
1 15 1025 5 100 5 1600 5 | 0 | 1 | 11 | 21 | File(133)
1 15 1025 5 100 5 1600 5 | 0 0 | 0 | 1 | 1 | File(133)
1 15 1025 5 100 5 1600 5 | 1024 577 | 0 | 6 | 2 | [(100, 5, 0), (1600, 1, 5)] | [2]
1 15 1025 5 100 5 1600 5 | 1024 577 | 0 | 7 | 2 | File(133)
";

#[test]
fn objects_beside_spared_blocks(rt: HostRuntime) {
    for i in 0..line_count(BESIDE) {
        let line = line_at(BESIDE, i);
        try_beside(&rt, line);
    }
}

fn try_beside(rt: &(impl Abort + AllocGlobal), line: &str) {
    let alloc = rt.alloc();
    let mut row = Row::new(line);
    let reserved = reserved_of(rt, &mut row);
    let spared = SparedBlocks {
        from: Records::from_vec(row.numbers::<u32>(rt, alloc)),
        takes: row.number::<u32>(rt) == 1,
    };
    let objects = data_of(rt, &mut row);
    let placed = spare_small(alloc, reserved, objects, 24, spared);
    tells_placed(rt, &placed, &mut row, line);
}

/// So many files of one block, with numbers from 1000 on.
fn small_files(alloc: Global, count: u64) -> Result<Vec<Object>, AllocError>
    requires { count ≤ 4096 }
    ensures { IfOk result (λ objects. All (λ object. All IsAsk object.runs) objects.items) }
{
    let mut objects = Vec::new(alloc);
    for i in 0..count {
        objects.push(object(alloc, 1000 + i, ObjectKind::Data, &[1], 1)?)?;
    }
    Ok(objects)
}

/// Places so many files of one block in a volume of which the highest 31 blocks of each group are spared.
fn fill(rt: &impl Abort, alloc: Global, count: u64, takes: bool) -> Result<Placed, PlaceFault>
    requires { count ≤ 4096 }
{
    let spared = SparedBlocks {
        from: Records::from_vec(must(rt, vec![in alloc; 993, 993])),
        takes,
    };
    let Ok(files) = small_files(alloc, count) else {
        refuse(rt, "memory is wanting", "files");
    };
    spare_small(alloc, Vec::new(alloc), files, 24, spared)
}

/// The first block of the last run.
fn last_start(placed: &Placed) -> Option<u64> {
    placed.runs.as_slice().last().map(|run| run.start)
}

/// Both groups filled to their brim, each block with another owner: AG blocks 24 to 992 of the first, 518 to 992 of the second.
#[test]
fn groups_filled_to_their_brim(rt: HostRuntime) {
    let rt = &rt;
    let alloc = rt.alloc();
    let all = 993 - 24 + (993 - 518);
    let placed = must(rt, fill(rt, alloc, all, false));
    equal(rt, last_start(&placed), Some(1024 + 992));
    for group in placed.groups.as_slice() {
        equal(rt, group.agfl.as_slice().len(), 6);
    }
    drop(placed);
    let found = fill(rt, alloc, all + 1, false);
    sure(
        rt,
        matches!(found, Err(PlaceFault::NoRoom(Unplaced::File(2444)))),
        "one file more",
    );
    drop(found);
    let placed = must(rt, fill(rt, alloc, all + 1, true));
    equal(rt, last_start(&placed), Some(993));
    drop(placed);
}
