//! Volumes of which one run is kept.

ghost use Rattle.std.specs.Prelude.{◌≡◌, ◌≤◌, ◌<◌, ◌+◌, ◌%◌, ◌^◌, ◌⊎◌, length, All, IfOk};
ghost use Rattle.xfs_geom.specs.Shape.{IsShaped};
ghost use Rattle.xfs_place.specs.Objects.{IsAsk};

use super::*;
use crate::checks::{equal, equal_at, must, sure};
use crate::text::{Row, line_at, line_count, tells};
use std::fmt::Debug;
use std::process::Abort;
use xfs_geom::{Counts, InoRec, RmapRec, Span};

/// A volume with a log of 512 blocks.
#[derive(Clone, Copy)]
pub struct Size {
    pub dblocks: u64,
    pub agblocks: u32,
    pub agcount: u32,
    pub agblklog: u8,
    pub log: u64,
}

/// Two groups of 1024 blocks, and the log at AG blocks 6 to 517 of the second.
pub const SMALLEST: Size = Size {
    dblocks: 2048,
    agblocks: 1024,
    agcount: 2,
    agblklog: 10,
    log: 1030,
};

pub fn shaped(size: &Size) -> Geometry
    requires { IsShaped size.now.dblocks size.now.agblocks size.now.agcount size.now.agblklog size.now.log 512 128 0 }
    ensures blocks { result.dblocks ≡ size.now.dblocks }
    ensures group { result.agblocks ≡ size.now.agblocks }
    ensures groups { result.agcount ≡ size.now.agcount }
    ensures log { result.log ≡ size.now.log }
    ensures logblocks { result.logblocks ≡ 512 }
{
    Geometry {
        dblocks: size.dblocks,
        agblocks: size.agblocks,
        agcount: size.agcount,
        agblklog: size.agblklog,
        log: size.log,
        logblocks: 512,
        rootino: 128,
        logsectlog: 0,
        uuid: [7; 16],
    }
}

/// Places objects from an AG block on, and the trees, in a volume of which one run is kept, where no block is spared.
pub fn place_beside(
    alloc: Global,
    size: &Size,
    run: Run,
    reserved: Vec<u64>,
    objects: Vec<Object>,
    from: u32,
) -> Result<Placed, PlaceFault>
    requires shape { IsShaped size.now.dblocks size.now.agblocks size.now.agcount size.now.agblklog size.now.log 512 128 0 }
    requires some { 1 ≤ run.count }
    requires inside { run.start + run.count ≤ size.now.dblocks }
    requires behind { 1 ≤ run.start % size.now.agblocks }
    requires within { run.start % size.now.agblocks + run.count ≤ size.now.agblocks }
    requires log { (run.start + run.count ≤ size.now.log) ⊎ (size.now.log + 512 ≤ run.start) }
    requires word { run.offset_word ≡ 0 }
    requires length { run.count < 2 ^ 32 }
    requires asks { All (λ object. All IsAsk object.runs) objects.items }
{
    let spared = SparedBlocks {
        from: Records::from_vec(Vec::new(alloc)),
        takes: false,
    };
    place_sparing(alloc, size, run, reserved, objects, from, spared)
}

/// The same in the smallest volume with the root's chunk.
pub fn place_small(
    alloc: Global,
    reserved: Vec<u64>,
    objects: Vec<Object>,
    from: u32,
) -> Result<Placed, PlaceFault>
    requires asks { All (λ object. All IsAsk object.runs) objects.items }
{
    place_beside(alloc, &SMALLEST, root_chunk(), reserved, objects, from)
}

/// The same where blocks are spared.
pub fn spare_small(
    alloc: Global,
    reserved: Vec<u64>,
    objects: Vec<Object>,
    from: u32,
    spared: SparedBlocks,
) -> Result<Placed, PlaceFault>
    requires asks { All (λ object. All IsAsk object.runs) objects.items }
{
    place_sparing(
        alloc,
        &SMALLEST,
        root_chunk(),
        reserved,
        objects,
        from,
        spared,
    )
}

/// Of each group the AG block from which on its blocks are spared, and whether objects may take these.
#[derive(Drop)]
pub struct SparedBlocks {
    pub from: Records<u32>,
    pub takes: bool,
}

/// Places objects from an AG block on, and the trees, in a volume of which one run is kept and blocks are spared. The first group has the
/// record of the root's chunk.
pub fn place_sparing(
    alloc: Global,
    size: &Size,
    run: Run,
    reserved: Vec<u64>,
    objects: Vec<Object>,
    from: u32,
    spared: SparedBlocks,
) -> Result<Placed, PlaceFault>
    requires shape { IsShaped size.now.dblocks size.now.agblocks size.now.agcount size.now.agblklog size.now.log 512 128 0 }
    requires some { 1 ≤ run.count }
    requires inside { run.start + run.count ≤ size.now.dblocks }
    requires behind { 1 ≤ run.start % size.now.agblocks }
    requires within { run.start % size.now.agblocks + run.count ≤ size.now.agblocks }
    requires log { (run.start + run.count ≤ size.now.log) ⊎ (size.now.log + 512 ≤ run.start) }
    requires word { run.offset_word ≡ 0 }
    requires length { run.count < 2 ^ 32 }
    requires asks { All (λ object. All IsAsk object.runs) objects.items }
{
    let wanted = Wanted {
        geometry: shaped(size),
        taken: Records::from_vec(vec![in alloc; run]?),
        new: Records::from_vec(Vec::new(alloc)),
        reserved: Records::from_vec(reserved),
        from,
        spared_from: spared.from,
        takes_spared: spared.takes,
        objects: Records::from_vec(objects),
        inodes: Records::from_vec(root_alone(alloc, size.agcount)?),
    };
    place(alloc, &wanted)
}

/// The records of inodes of so many groups: the root's chunk in the first.
fn root_alone(alloc: Global, groups: u32) -> Result<Vec<GroupInodes>, AllocError>
    ensures all { IfOk result (λ all. length all.items ≡ groups) }
    ensures few { IfOk result (λ all. All (λ group. length group.records < 2 ^ 32) all.items) }
{
    let root = InoRec {
        startino: 128,
        holemask: 0,
        count: 64,
        freecount: 61,
        free: 0xffff_ffff_ffff_fff8,
    };
    let mut all = Vec::new(alloc);
    for ag in 0..groups {
        let mut records = Vec::new(alloc);
        if ag == 0 {
            records.push(root)?;
        }
        all.push(GroupInodes {
            records: Records::from_vec(records),
        })?;
    }
    Ok(all)
}

/// The root's chunk at its place in a new volume.
pub fn root_chunk() -> Run
    ensures { result ≡ record { start = 16; count = 8; owner = INODES; offset_word = 0 } }
{
    Run {
        start: 16,
        count: 8,
        owner: INODES,
        offset_word: 0,
    }
}

/// Fails where the groups do not hold what the lines of a table say, each with a group's number, the blocks of its trees, of one block each,
/// how many chunks have a free inode, the free list, the free runs (start and blocks), and the owners' runs (start, blocks and owner, which is
/// of the sixteen digits fd for the file system, fc for the log, fb for the group, fa for the trees of inodes and f9 for inodes at the end).
fn hold(rt: &(impl Abort + AllocGlobal), placed: &Placed, table: &str) {
    for i in 0..line_count(table) {
        let line = line_at(table, i);
        let mut row = Row::new(line);
        let ag = row.number::<usize>(rt);
        let groups = placed.groups.as_slice();
        sure(rt, ag < groups.len(), line);
        holds(rt, &groups[ag], &mut row, line);
    }
}

/// Fails where a group does not hold what the rest of a line says.
fn holds(rt: &(impl Abort + AllocGlobal), group: &GroupPlaced, row: &mut Row<'_>, line: &str) {
    let alloc = rt.alloc();
    hold_trees(rt, group, &row.numbers::<u64>(rt, alloc), line);
    equal_at(
        rt,
        group.fino.as_slice().len(),
        row.number::<usize>(rt),
        line,
    );
    are_next::<u32>(rt, group.agfl.as_slice(), row, line);
    let mut free = *row;
    are_next::<u64>(
        rt,
        &numbers_of(rt, alloc, group.bno.as_slice()),
        &mut free,
        line,
    );
    are_next::<u64>(rt, &numbers_of(rt, alloc, group.cnt.as_slice()), row, line);
    are_next::<u64>(rt, &owners_of(rt, alloc, group.rmap.as_slice()), row, line);
}

/// Fails where these are not the numbers that stand next in a line.
pub fn are_next<T: TryFrom<u64> + PartialEq + Debug + Drop>(
    rt: &(impl Abort + AllocGlobal),
    held: &[T],
    row: &mut Row<'_>,
    line: &str,
)
where
    T::Error: Drop,
{
    equal_at(rt, held, row.numbers::<T>(rt, rt.alloc()).as_slice(), line);
}

/// Fails where the five trees of a group do not have one block each, and these.
fn hold_trees(rt: &impl Abort, group: &GroupPlaced, blocks: &[u64], line: &str) {
    let trees = group.trees.as_slice();
    equal_at(rt, trees.len(), 5, line);
    equal_at(rt, blocks.len(), 5, line);
    let mut rest = blocks.iter();
    for tree in trees {
        if let Some(block) = rest.next() {
            equal_at(rt, tree.blocks.as_slice(), [*block].as_slice(), line);
        }
    }
}

/// The starts and blocks of free runs.
fn numbers_of(rt: &impl Abort, alloc: Global, spans: &[Span]) -> Vec<u64> {
    let mut numbers = Vec::new(alloc);
    for span in spans {
        must(rt, numbers.push(span.start as u64));
        must(rt, numbers.push(span.count as u64));
    }
    numbers
}

/// The starts, blocks and owners of runs, and the offsets of those that have one.
fn owners_of(rt: &impl Abort, alloc: Global, runs: &[RmapRec]) -> Vec<u64> {
    let mut numbers = Vec::new(alloc);
    for run in runs {
        must(rt, numbers.push(run.start as u64));
        must(rt, numbers.push(run.count as u64));
        must(rt, numbers.push(run.owner));
        if run.offset_word != 0 {
            must(rt, numbers.push(run.offset_word));
        }
    }
    numbers
}

/// The groups of a new volume.
const NEW: &str = "\
0 | 1 2 3 4 5 | 1 | 6 7 8 9 10 11 | 12 4 24 1000 | 0 1 0xfffffffffffffffd 1 2 0xfffffffffffffffb 3 2 0xfffffffffffffffa 5 7 0xfffffffffffffffb 16 8 0xfffffffffffffff9
1 | 1025 1026 1027 1028 1029 | 0 | 518 519 520 521 522 523 | 524 500 | 0 1 0xfffffffffffffffd 1 2 0xfffffffffffffffb 3 2 0xfffffffffffffffa 5 1 0xfffffffffffffffb 6 512 0xfffffffffffffffc 518 6 0xfffffffffffffffb
";

#[test]
fn new_volume(rt: HostRuntime) {
    let rt = &rt;
    let alloc = rt.alloc();
    let none = Vec::new(alloc);
    let placed = must(rt, place_small(alloc, none, Vec::new(alloc), 1));
    let counts = Counts {
        icount: 64,
        ifree: 61,
        fdblocks: 1516,
    };
    equal(rt, placed.counts, counts);
    equal(rt, placed.groups.as_slice().len(), 2);
    hold(rt, &placed, NEW);
    drop(placed);
}

/// The groups where blocks 3 and 5 of each are reserved.
const BESIDE_RESERVED: &str = "\
0 | 1 2 4 6 7 | 1 | 8 9 10 11 12 13 | 3 1 5 1 14 2 24 1000 | 0 1 0xfffffffffffffffd 1 2 0xfffffffffffffffb 4 1 0xfffffffffffffffa 6 1 0xfffffffffffffffa 7 7 0xfffffffffffffffb 16 8 0xfffffffffffffff9
1 | 1025 1026 1028 1542 1543 | 0 | 520 521 522 523 524 525 | 3 1 5 1 526 498 | 0 1 0xfffffffffffffffd 1 2 0xfffffffffffffffb 4 1 0xfffffffffffffffa 6 512 0xfffffffffffffffc 518 1 0xfffffffffffffffa 519 7 0xfffffffffffffffb
";

#[test]
fn trees_beside_reserved_blocks(rt: HostRuntime) {
    let rt = &rt;
    let alloc = rt.alloc();
    let reserved = must(rt, vec![in alloc; 3, 5, 1027, 1029]);
    let placed = must(rt, place_small(alloc, reserved, Vec::new(alloc), 1));
    equal(rt, placed.groups.as_slice().len(), 2);
    hold(rt, &placed, BESIDE_RESERVED);
    drop(placed);
}

/// A last group of 64 blocks.
const SMALL_LAST: Size = Size {
    dblocks: 1088,
    agblocks: 1024,
    agcount: 2,
    agblklog: 10,
    log: 100,
};

/// A file's run.
pub fn file(start: u64, count: u64) -> Run
    ensures { result ≡ record { start = start; count = count; owner = 131; offset_word = 0 } }
{
    Run {
        start,
        count,
        owner: 131,
        offset_word: 0,
    }
}

/// The last group of 64 blocks, of which a file has all but ten.
const FULL_LAST: &str = "\
1 | 1025 1026 1027 1028 1029 | 0 | 6 7 8 9 |  | 0 1 0xfffffffffffffffd 1 2 0xfffffffffffffffb 3 2 0xfffffffffffffffa 5 5 0xfffffffffffffffb 10 54 131
";

#[test]
fn small_last_group(rt: HostRuntime) {
    let rt = &rt;
    let alloc = rt.alloc();
    let none = Vec::new(alloc);
    let placed = must(
        rt,
        place_beside(alloc, &SMALL_LAST, file(1034, 54), none, Vec::new(alloc), 1),
    );
    equal(rt, placed.groups.as_slice().len(), 2);
    hold(rt, &placed, FULL_LAST);
    drop(placed);
    let none = Vec::new(alloc);
    let found = place_beside(alloc, &SMALL_LAST, file(1029, 59), none, Vec::new(alloc), 1);
    sure(
        rt,
        matches!(found, Err(PlaceFault::NoRoom(Unplaced::Group(1)))),
        "a full group",
    );
    drop(found);
}

/// The free blocks, and the blocks of the free list and the free runs then.
const NEARLY_FULL: &str = "\
0 | None
1 | None
2 | None
3 | None
4 | None
5 | Some((0, 0))
6 | Some((1, 0))
7 | Some((2, 0))
8 | Some((3, 0))
9 | Some((4, 0))
10 | Some((5, 0))
11 | Some((6, 0))
12 | Some((6, 1))
";

#[test]
fn groups_nearly_full(rt: HostRuntime) {
    let rt = &rt;
    for i in 0..line_count(NEARLY_FULL) {
        let line = line_at(NEARLY_FULL, i);
        let mut row = Row::new(line);
        let seen = seen_with(rt, row.number::<u64>(rt).min(12), line);
        tells(rt, &seen, row.text(), line);
    }
}

/// The blocks of the free list and the free runs of the first group where so many of its blocks are free.
fn seen_with(rt: &(impl Abort + AllocGlobal), blocks: u64, line: &str) -> Option<(usize, usize)>
    requires { blocks ≤ 12 }
{
    let alloc = rt.alloc();
    let full = file(1 + blocks, 1023 - blocks);
    match place_beside(alloc, &SMALLEST, full, Vec::new(alloc), Vec::new(alloc), 1) {
        Ok(placed) => first_lengths(&placed),
        Err(fault) => {
            tells(rt, &fault, "NoRoom(Group(0))", line);
            None
        }
    }
}

/// The blocks of the free list and the free runs of the first group.
fn first_lengths(placed: &Placed) -> Option<(usize, usize)> {
    let first = placed.groups.as_slice().first();
    first.map(|group| (group.agfl.as_slice().len(), group.bno.as_slice().len()))
}

/// Four groups of 2048 blocks.
const FOUR_GROUPS: Size = Size {
    dblocks: 8192,
    agblocks: 2048,
    agcount: 4,
    agblklog: 11,
    log: 4102,
};

/// The four groups of a new volume.
const FOUR: &str = "\
0 | 1 2 3 4 5 | 1 | 6 7 8 9 10 11 | 12 4 24 2024 | 0 1 0xfffffffffffffffd 1 2 0xfffffffffffffffb 3 2 0xfffffffffffffffa 5 7 0xfffffffffffffffb 16 8 0xfffffffffffffff9
1 | 2049 2050 2051 2052 2053 | 0 | 6 7 8 9 10 11 | 12 2036 | 0 1 0xfffffffffffffffd 1 2 0xfffffffffffffffb 3 2 0xfffffffffffffffa 5 7 0xfffffffffffffffb
3 | 6145 6146 6147 6148 6149 | 0 | 6 7 8 9 10 11 | 12 2036 | 0 1 0xfffffffffffffffd 1 2 0xfffffffffffffffb 3 2 0xfffffffffffffffa 5 7 0xfffffffffffffffb
2 | 4097 4098 4099 4100 4101 | 0 | 518 519 520 521 522 523 | 524 1524 | 0 1 0xfffffffffffffffd 1 2 0xfffffffffffffffb 3 2 0xfffffffffffffffa 5 1 0xfffffffffffffffb 6 512 0xfffffffffffffffc 518 6 0xfffffffffffffffb
";

#[test]
fn four_groups(rt: HostRuntime) {
    let rt = &rt;
    let alloc = rt.alloc();
    let none = Vec::new(alloc);
    let placed = must(
        rt,
        place_beside(alloc, &FOUR_GROUPS, root_chunk(), none, Vec::new(alloc), 1),
    );
    equal(rt, placed.counts.fdblocks, 7648);
    equal(rt, placed.groups.as_slice().len(), 4);
    hold(rt, &placed, FOUR);
    drop(placed);
}
