//! Objects that take several runs where a single one is not to be had.

ghost use Rattle.std.specs.Prelude.{◌≤◌, All, IfOk};
ghost use Rattle.xfs_place.specs.Objects.{IsAsk};

use super::groups::{SMALLEST, place_small};
use super::objects::one_object;
use super::*;
use crate::checks::must;
use crate::text::{Row, line_at, line_count, refuse, tells};
use std::process::Abort;

/// The blocks of a volume of so many, but for those of these rows, each a first block and a number of blocks.
pub fn all_but(rt: &impl Abort, alloc: Global, rows: &[u64], blocks: u64) -> Vec<u64> {
    let mut reserved = Vec::new(alloc);
    for block in 1..blocks {
        if !is_of(rows, block) {
            must(rt, reserved.push(block));
        }
    }
    reserved
}

/// Whether a block is one of the rows.
fn is_of(rows: &[u64], block: u64) -> bool {
    let mut start = None;
    for number in rows {
        match start.take() {
            None => start = Some(*number),
            Some(first) => {
                if first <= block && block - first < *number {
                    return true;
                }
            }
        }
    }
    false
}

/// Lengths of asks, each at least one.
pub fn lengths_of(alloc: Global, numbers: &[u32]) -> Result<Vec<u32>, AllocError>
    ensures { IfOk result (λ lengths. All (λ blocks. 1 ≤ blocks) lengths.items) }
{
    let mut lengths = Vec::new(alloc);
    for number in numbers {
        lengths.push((*number).max(1))?;
    }
    Ok(lengths)
}

/// The runs of what is placed: the first block, the blocks and the offset of each.
pub fn runs_of(rt: &impl Abort, alloc: Global, placed: &Placed) -> Vec<(u64, u64, u64)> {
    let mut runs = Vec::new(alloc);
    for run in placed.runs.as_slice() {
        must(rt, runs.push((run.start, run.count, run.offset_word)));
    }
    runs
}

/// The blocks of the smallest volume, but for those of the rows that stand next in a line.
pub fn reserved_of(rt: &(impl Abort + AllocGlobal), row: &mut Row<'_>) -> Vec<u64> {
    let alloc = rt.alloc();
    let rows = row.numbers::<u64>(rt, alloc);
    all_but(rt, alloc, &rows, SMALLEST.dblocks)
}

/// The data of a file, in asks of the lengths that stand next in a line, which may take as many runs as stand behind these.
pub fn data_of(rt: &(impl Abort + AllocGlobal), row: &mut Row<'_>) -> Vec<Object>
    ensures { All (λ object. All IsAsk object.runs) result.items }
{
    let alloc = rt.alloc();
    let numbers = row.numbers::<u32>(rt, alloc);
    let Ok(lengths) = lengths_of(alloc, &numbers) else {
        refuse(rt, "memory is wanting", "lengths");
    };
    let most = row.number(rt);
    one_object(rt, alloc, 133, ObjectKind::Data, &lengths, most)
}

/// Fails where what was placed does not stand as the end of a line says: the runs and how many each ask has.
pub fn tells_runs(rt: &(impl Abort + AllocGlobal), placed: &Placed, row: &mut Row<'_>, line: &str) {
    let runs = runs_of(rt, rt.alloc(), placed);
    tells(rt, &runs.as_slice(), row.text(), line);
    tells(rt, &placed.cuts.as_slice(), row.text(), line);
}

/// The same, or where not as it says what finds no room.
pub fn tells_placed(
    rt: &(impl Abort + AllocGlobal),
    placed: &Result<Placed, PlaceFault>,
    row: &mut Row<'_>,
    line: &str,
) {
    match placed {
        Ok(placed) => tells_runs(rt, placed, row, line),
        Err(PlaceFault::NoRoom(what)) => tells(rt, what, row.text(), line),
        Err(PlaceFault::NoMemory) => refuse(rt, "memory is wanting", line),
    }
}

/// Fails where an object does not stand as a line says in a volume in which only some rows of blocks are open. The line has the AG block from
/// which on it may stand, the rows (start and blocks), the lengths of the asks, how many runs they may take, and what stands: the runs and how
/// many each ask has, or what finds no room.
fn stands(rt: &(impl Abort + AllocGlobal), line: &str) {
    let mut row = Row::new(line);
    let from = row.number(rt);
    let reserved = reserved_of(rt, &mut row);
    let objects = data_of(rt, &mut row);
    let placed = place_small(rt.alloc(), reserved, objects, from);
    tells_placed(rt, &placed, &mut row, line);
    drop(placed);
}

/// In a pool of single blocks an object has as many blocks as it may take runs; elsewhere the longest runs come first, and one run where
/// there is one.
const PIECES: &str = "\
24 | 1 15 1025 5 100 1 102 1 104 1 | 1 | 1 | [(100, 1, 0)] | [1]
24 | 1 15 1025 5 100 1 102 1 104 1 | 2 | 1 | File(133)
24 | 1 15 1025 5 100 1 102 1 104 1 | 3 | 3 | [(100, 1, 0), (102, 1, 1), (104, 1, 2)] | [3]
24 | 1 15 1025 5 100 1 102 1 104 1 106 1 | 4 | 3 | File(133)
24 | 1 15 1025 5 100 1 102 1 | 3 | 3 | File(133)
24 | 1 15 1025 5 100 1 102 1 104 1 106 1 | 2 1 | 3 | [(100, 1, 0), (102, 1, 1), (104, 1, 0)] | [2, 1]
24 | 1 15 1025 5 100 1 102 1 104 1 106 1 | 2 2 | 3 | File(133)
24 | 1 15 1025 5 100 1 102 1 104 1 106 1 | 1 2 | 3 | [(100, 1, 0), (102, 1, 0), (104, 1, 1)] | [1, 2]
24 | 1 15 1025 5 100 1 102 1 104 1 106 1 | 3 1 | 3 | File(133)
24 | 1 15 1025 5 100 1 102 1 104 1 106 1 | 1 1 | 1 | File(133)
24 | 1 15 1025 5 100 1 102 1 104 1 106 1 108 1 110 1 112 1 114 1 116 1 118 1 120 1 122 1 124 1 126 1 128 1 130 1 132 1 134 1 136 1 138 1 140 1 142 1 | 21 | 21 | [(100, 1, 0), (102, 1, 1), (104, 1, 2), (106, 1, 3), (108, 1, 4), (110, 1, 5), (112, 1, 6), (114, 1, 7), (116, 1, 8), (118, 1, 9), (120, 1, 10), (122, 1, 11), (124, 1, 12), (126, 1, 13), (128, 1, 14), (130, 1, 15), (132, 1, 16), (134, 1, 17), (136, 1, 18), (138, 1, 19), (140, 1, 20)] | [21]
24 | 1 15 1025 5 100 1 102 1 104 1 106 1 108 1 110 1 112 1 114 1 116 1 118 1 120 1 122 1 124 1 126 1 128 1 130 1 132 1 134 1 136 1 138 1 140 1 142 1 | 22 | 21 | File(133)
24 | 1 15 1025 5 100 3 200 5 300 2 400 5 | 5 | 3 | [(200, 5, 0)] | [1]
24 | 1 15 1025 5 100 3 200 5 300 2 400 5 | 7 | 3 | [(200, 5, 0), (100, 2, 5)] | [2]
24 | 1 15 1025 5 100 3 200 5 300 2 400 5 | 12 | 3 | [(200, 5, 0), (400, 5, 5), (100, 2, 10)] | [3]
24 | 1 15 1025 5 100 3 200 5 300 2 400 5 | 15 | 3 | File(133)
24 | 1 15 1025 5 100 3 200 5 300 2 400 5 | 15 | 4 | [(200, 5, 0), (400, 5, 5), (100, 3, 10), (300, 2, 13)] | [4]
24 | 1 15 1025 5 100 3 200 5 300 2 400 5 | 16 | 21 | File(133)
24 | 1 15 1025 5 100 3 200 5 | 4 4 | 4 | [(200, 4, 0), (100, 3, 0), (204, 1, 3)] | [1, 2]
24 | 1 15 1025 5 100 3 1600 4 | 5 | 2 | [(1600, 4, 0), (100, 1, 4)] | [2]
";

#[test]
fn pieces_of_asks(rt: HostRuntime) {
    for i in 0..line_count(PIECES) {
        let line = line_at(PIECES, i);
        stands(&rt, line);
    }
}
