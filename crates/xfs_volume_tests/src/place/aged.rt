//! A directory that is placed anew in an aged volume, and the trees of both groups behind it.

ghost use Rattle.std.specs.Prelude.{◌≤◌};

use super::groups::{SMALLEST, SparedBlocks, are_next, shaped, spare_small};
use super::objects::one_object;
use super::pieces::{reserved_of, tells_runs};
use super::*;
use crate::checks::{equal_at, must};
use crate::text::{Row, line_at, line_count, refuse, tells};
use std::process::Abort;

/// The blocks that are spared of a volume of two groups in which only some are open, in a repair.
fn spare_in_repair(rt: &impl Abort, alloc: Global, reserved: &[u64], line: &str) -> Records<u32> {
    match spare(alloc, &shaped(&SMALLEST), &[], reserved, false) {
        Ok(spared) => spared,
        Err(_) => refuse(rt, "memory is wanting", line),
    }
}

/// The blocks of all trees of a group.
fn blocks_of(rt: &impl Abort, alloc: Global, group: &GroupPlaced) -> Vec<u64> {
    let mut blocks = Vec::new(alloc);
    for tree in group.trees.as_slice() {
        must(rt, blocks.extend_from_slice(tree.blocks.as_slice()));
    }
    blocks
}

/// Fails where the groups do not have what is left of a line: of each the blocks of its trees, and those of its free list.
pub fn stand_behind(
    rt: &(impl Abort + AllocGlobal),
    placed: &Placed,
    row: &mut Row<'_>,
    line: &str,
) {
    for group in placed.groups.as_slice() {
        are_next::<u64>(rt, &blocks_of(rt, rt.alloc(), group), row, line);
        are_next::<u32>(rt, group.agfl.as_slice(), row, line);
    }
    equal_at(rt, row.is_read(), true, line);
}

/// The rows of blocks (start and blocks) that are all of the pool, from which AG block on those of each group are spared, the runs of three
/// blocks of data and one of an index, and how many each of these has, and what stands behind them.
const AGED: &str = "\
1 2 4 1 6 2 78 2 81 2 84 2 87 2 90 2 1025 2 1028 1 1542 2 1545 2 1548 2 1551 2 | [0, 0] | [(1, 2, 0), (4, 1, 2), (6, 1, 0)] | [2, 1] | 7 78 79 81 82 | 84 85 87 88 90 91 | 1025 1026 1028 1542 1543 | 521 522 524 525 527 528
1 2 4 1 6 2 78 2 81 2 84 2 87 2 90 2 1002 22 1025 2 1028 1 1542 2 1545 2 1548 2 1551 2 | [92, 0] | [(1, 2, 0), (4, 1, 2), (6, 1, 0)] | [2, 1] | 7 78 79 81 82 | 84 85 87 88 90 91 | 1025 1026 1028 1542 1543 | 521 522 524 525 527 528
1 2 4 1 6 2 78 2 81 2 84 2 87 2 90 2 999 25 1025 2 1028 1 1542 2 1545 2 1548 2 1551 2 | [1002, 0] | [(999, 3, 0), (1, 1, 0)] | [1, 1] | 2 4 6 7 78 | 79 81 82 84 85 87 | 1025 1026 1028 1542 1543 | 521 522 524 525 527 528
";

#[test]
fn directory_placed_anew(rt: HostRuntime) {
    for i in 0..line_count(AGED) {
        let line = line_at(AGED, i);
        try_aged(&rt, line);
    }
}

fn try_aged(rt: &(impl Abort + AllocGlobal), line: &str) {
    let alloc = rt.alloc();
    let mut row = Row::new(line);
    let reserved = reserved_of(rt, &mut row);
    let from = spare_in_repair(rt, alloc, &reserved, line);
    tells(rt, &from.as_slice(), row.text(), line);
    let objects = one_object(rt, alloc, 131, ObjectKind::Directory, &[3, 1], 21);
    let spared = SparedBlocks { from, takes: true };
    let placed = must(rt, spare_small(alloc, reserved, objects, 1, spared));
    tells_runs(rt, &placed, &mut row, line);
    stand_behind(rt, &placed, &mut row, line);
    drop(placed);
}
