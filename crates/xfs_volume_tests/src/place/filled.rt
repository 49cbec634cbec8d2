//! New volumes of two groups of 2048 blocks that files fill, but for what is spared for their trees.

ghost use Rattle.std.specs.Prelude.{◌≡◌, All, IfOk};
ghost use Rattle.xfs_place.specs.Objects.{IsAsk};
ghost use Rattle.xfs_place.specs.Pool.{IsRunOf};

use super::aged::stand_behind;
use super::groups::{Size, SparedBlocks, place_sparing, root_chunk, shaped};
use super::objects::object;
use super::pieces::tells_placed;
use super::*;
use crate::checks::{equal, equal_at, must};
use crate::text::{Row, line_at, line_count, refuse, tells};
use std::process::Abort;

/// Two groups of 2048 blocks, and the log at AG blocks 6 to 517 of the second.
const NEW: Size = Size {
    dblocks: 4096,
    agblocks: 2048,
    agcount: 2,
    agblklog: 11,
    log: 2054,
};

/// What is spared of the volume beside its chunks, and that objects may not take it.
fn spare_anew(rt: &impl Abort, alloc: Global, chunks: Run) -> SparedBlocks
    requires { IsRunOf 4096 chunks }
{
    match spare(alloc, &shaped(&NEW), &[chunks], &[], true) {
        Ok(spared) => SparedBlocks {
            from: spared,
            takes: false,
        },
        Err(_) => refuse(rt, "memory is wanting", "spared blocks"),
    }
}

/// Files of so many blocks each, at least one.
fn files_of(alloc: Global, lengths: &[u32]) -> Result<Vec<Object>, AllocError>
    ensures { IfOk result (λ objects. All (λ object. All IsAsk object.runs) objects.items) }
{
    let mut objects = Vec::new(alloc);
    for (i, blocks) in lengths.iter().enumerate() {
        let data = object(
            alloc,
            131 + i as u64,
            ObjectKind::Data,
            &[(*blocks).max(1)],
            21,
        )?;
        objects.push(data)?;
    }
    Ok(objects)
}

/// The blocks of files, and what stands: the runs, how many each file has, the free blocks, and of each group the blocks of its trees and
/// those of its free list; or what finds no room.
const LARGE: &str = "\
3000 | [(24, 1973, 0), (2566, 1027, 1973)] | [2] | 564 | 1 2 3 4 5 | 6 7 8 9 10 11 | 2049 2050 2051 2052 2053 | 1545 1546 1547 1548 1549 1550
3000 452 | [(24, 1973, 0), (2566, 1027, 1973), (3593, 452, 0)] | [2, 1] | 112 | 1 2 3 4 5 | 6 7 8 9 10 11 | 2049 2050 2051 2052 2053 | 1997 1998 1999 2000 2001 2002
3000 453 | File(132)
3452 | [(24, 1973, 0), (2566, 1479, 1973)] | [2] | 112 | 1 2 3 4 5 | 6 7 8 9 10 11 | 2049 2050 2051 2052 2053 | 1997 1998 1999 2000 2001 2002
3453 | File(131)
";

#[test]
fn files_larger_than_a_group(rt: HostRuntime) {
    for i in 0..line_count(LARGE) {
        let line = line_at(LARGE, i);
        try_large(&rt, line);
    }
}

fn try_large(rt: &(impl Abort + AllocGlobal), line: &str) {
    let alloc = rt.alloc();
    let mut row = Row::new(line);
    let lengths = row.numbers::<u32>(rt, alloc);
    let spared = spare_anew(rt, alloc, root_chunk());
    tells(rt, &spared.from.as_slice(), "[1997, 1997]", line);
    let placed = place_files(rt, alloc, &lengths, spared);
    tells_placed(rt, &placed, &mut row, line);
    if let Ok(placed) = &placed {
        equal_at(rt, placed.counts.fdblocks, row.number::<u64>(rt), line);
        stand_behind(rt, placed, &mut row, line);
    }
    drop(placed);
}

/// Places files of so many blocks each behind the root's chunk.
fn place_files(
    rt: &impl Abort,
    alloc: Global,
    lengths: &[u32],
    spared: SparedBlocks,
) -> Result<Placed, PlaceFault> {
    let Ok(objects) = files_of(alloc, lengths) else {
        refuse(rt, "memory is wanting", "files");
    };
    place_sparing(
        alloc,
        &NEW,
        root_chunk(),
        Vec::new(alloc),
        objects,
        24,
        spared,
    )
}

/// Thirty chunks of inodes.
fn thirty_chunks() -> Run
    ensures { result ≡ record { start = 16; count = 240; owner = INODES; offset_word = 0 } }
{
    Run {
        start: 16,
        count: 240,
        owner: INODES,
        offset_word: 0,
    }
}

/// The runs of a directory with 1,900 names, and then so many files of one block.
fn many_files(rt: &impl Abort, alloc: Global) -> Vec<u32> {
    let mut lengths = must(rt, vec![in alloc; 12, 5, 1]);
    for _file in 0..1900 {
        must(rt, lengths.push(1));
    }
    lengths
}

/// The numbers of some runs, and their first blocks.
const STARTS: &str = "\
0 256
1 268
2 273
3 274
1725 1996
1726 2566
1902 2742
";

/// The blocks of the trees and of the free list of each group: owners of single blocks have a tree of two levels.
const TREES: &str = "\
1 2 3 4 5 6 7 8 9 10 11 12 13 14 15 1997 | 1998 1999 2000 2001 2002 2003 | 2049 2050 2051 2052 2053 2743 2744 | 697 698 699 700 701 702
";

#[test]
fn many_files_beside_spared_blocks(rt: HostRuntime) {
    let rt = &rt;
    let alloc = rt.alloc();
    let lengths = many_files(rt, alloc);
    let chunks = thirty_chunks();
    let spared = spare_anew(rt, alloc, chunks);
    let Ok(objects) = files_of(alloc, &lengths) else {
        refuse(rt, "memory is wanting", "files");
    };
    let placed = place_sparing(alloc, &NEW, chunks, Vec::new(alloc), objects, 256, spared);
    tells_many(rt, &must(rt, placed));
}

/// Fails where the many files do not stand as they are due.
fn tells_many(rt: &(impl Abort + AllocGlobal), placed: &Placed) {
    equal(rt, placed.runs.as_slice().len(), 1903);
    for i in 0..line_count(STARTS) {
        let line = line_at(STARTS, i);
        let mut row = Row::new(line);
        let run = placed.runs.as_slice().get(row.number::<usize>(rt));
        equal_at(
            rt,
            run.map(|run| run.start),
            Some(row.number::<u64>(rt)),
            line,
        );
    }
    equal(rt, placed.counts.fdblocks, 1414);
    for i in 0..line_count(TREES) {
        let line = line_at(TREES, i);
        stand_behind(rt, placed, &mut Row::new(line), line);
    }
}
