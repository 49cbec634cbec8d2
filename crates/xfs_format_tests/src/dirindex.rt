//! Directories in single-block, leaf and node form, sound and with one number changed.

ghost use Rattle.std.specs.Prelude.{◌≡◌, length};
ghost use Rattle.xfs_dirindex.specs.Mapped.{OffsetsAscend};

use crate::checks::{must, sure};
use crate::text::{Row, line_at, line_count, part_at, part_count, tells};
use std::alloc::Global;
use std::process::Abort;
use xfs_collections::BlockBank;
use xfs_dirindex::*;

/// Data block 0 with `.`, `..` and `a`, and data block 3 with `b` and `c`, as mapped blocks 0 and 1. In each line stand
/// a mapped block, a byte offset in it and the bytes from there on.
const DATA: &str = "\
0 0 58444433
0 48 0070 0f90
0 64 0000000000000064 01 2e 02 000000 0040
0 80 0000000000000080 02 2e2e 02 0000 0050
0 96 0000000000000083 01 61 01 000000 0060
0 112 ffff 0f90
0 4094 0070
1 0 58444433
1 48 0060 0fa0
1 64 0000000000000083 01 62 01 000000 0040
1 80 0000000000000083 01 63 01 000000 0050
1 96 ffff 0fa0
1 4094 0060
";

/// The index of the leaf form: six pairs, one of them stale, and four values.
const LEAF: &str = "\
2 8 3df1
2 56 0006 0001
2 64 0000002e 00000008 00000061 0000000c 00000062 00000000
2 88 00000062 00000608 00000063 0000060a 0000172e 0000000a
2 4084 0f90 ffff ffff 0fa0 00000004
";

/// The index of the node form: a node, two leaves of three pairs, and the free block.
const NODE: &str = "\
2 8 3ebe
2 56 0002 0001
2 64 00000062 00800001 0000172e 00800002
3 0 00800002 00000000 3dff
3 56 0003 0001
3 64 0000002e 00000008 00000061 0000000c 00000062 00000000
4 0 00000000 00800001 3dff
4 56 0003 0000
4 64 00000062 00000608 00000063 0000060a 0000172e 0000000a
5 52 00000004 00000002
5 64 0f90 ffff ffff 0fa0
";

/// What makes a leaf the root of a node form, and its free block.
const ROOT: &str = "\
2 8 3dff
3 52 00000004 00000002
3 64 0f90 ffff ffff 0fa0
";

/// The single-block form with `.`, `..` and `a`, its index of three pairs and a stale one, and its tail.
const SINGLE: &str = "\
0 0 58444233
0 48 0070 0f68
0 64 0000000000000064 01 2e 02 000000 0040
0 80 0000000000000080 02 2e2e 02 0000 0050
0 96 0000000000000083 01 61 01 000000 0060
0 112 ffff 0f68
0 4054 0070
0 4056 0000002e 00000008 00000061 0000000c 00000061 00000000 0000172e 0000000a
0 4088 00000004 00000001
";

/// The form, the check that is made, what it answers, the case, and what bytes of mapped blocks are changed.
const CASES: &str = "\
leaf leaf | Ok(()) | the leaf form |
leaf leaf | Err(Unsound) | an address | 2 78 000d
leaf leaf | Err(Unsound) | its hash | 2 74 0060
leaf leaf | Err(Unsound) | a stale pair with an address | 2 86 000c
leaf leaf | Err(Unsound) | the number of pairs | 2 56 0005
leaf leaf | Err(Unsound) | the number of stale pairs | 2 58 0002
leaf leaf | Err(Unsound) | hashes that descend | 2 74 0062, 2 82 0061
leaf leaf | Err(Unsound) | a pair that stands twice | 2 86 000c, 2 58 0000, 2 82 0061
leaf leaf | Err(Unsound) | the value of data block 0 | 2 4084 0f88
leaf leaf | Err(Unsound) | the value of data block 3 | 2 4090 0f98
leaf leaf | Err(Unsound) | the value of a block that is not mapped | 2 4086 0000
leaf leaf | Err(Unsound) | one value less | 2 4094 0003
leaf leaf | Ok(()) | one value more | 2 4082 0f90, 2 4084 ffff, 2 4088 0fa0, 2 4090 ffff, 2 4094 0005
leaf leaf | Err(Unsound) | another index block | 2 8 3dff
leaf leaf | Err(Unsound) | another data block | 1 2 4233
leaf leaf | Err(Unsound) | another directory | 0 70 0065
leaf leaf | Err(Unsound) | another name of the parent | 0 90 2f02
leaf leaf | Err(Unsound) | an unused span in front of the directory's entry | 0 48 0080 0f80 0040 0010, 0 64 ffff 0010, 0 78 0040, 0 80 0000000000000064 01 2e 02 000000 0050, 0 96 0000000000000080 02 2e2e 02 0000 0060, 0 112 0000000000000083 01 61 01 000000 0070, 0 128 ffff 0f80, 0 4094 0080, 2 68 0000000a, 2 76 0000000e, 2 108 0000000c, 2 4084 0f80
leaf single | Err(Unsound) | the leaf form as a single block |
node node | Ok(()) | the node form |
node node | Err(Unsound) | an address | 4 70 0609
node node | Err(Unsound) | a stale pair with an address | 3 86 000c
node node | Err(Unsound) | the number of stale pairs | 4 58 0001
node node | Err(Unsound) | the number of pairs | 4 56 0002, 2 74 0063
node node | Err(Unsound) | hashes that descend from leaf to leaf | 3 82 0065, 2 66 0065
node node | Ok(()) | another hash of a stale pair | 3 82 0061, 2 66 0061
node node | Err(Unsound) | a leaf as the node | 2 8 3dff
node node | Err(Unsound) | a node as a leaf | 3 8 3ebe
node node | Err(Unsound) | the leaf of the leaf form as a leaf | 3 8 3df1
node node | Err(Unsound) | a node of level 2 | 2 58 0002
node node | Err(Unsound) | a node of level 0 | 2 58 0000
node node | Err(Unsound) | the first hash of the node | 2 66 0063
node node | Err(Unsound) | the last hash of the node | 2 74 172d
node node | Err(Unsound) | a child that is not there | 2 78 0003
node node | Err(Unsound) | a child twice | 2 78 0001, 2 74 0062
node node | Err(Unsound) | the right neighbour of the first leaf | 3 2 0003
node node | Err(Unsound) | the left neighbour of the last leaf | 4 6 0002
node node | Err(Unsound) | a right neighbour of the last leaf | 4 0 0001
node node | Err(Unsound) | a left neighbour of the node | 2 6 0001
node node | Err(Unsound) | a value | 5 70 0fa8
node node | Err(Unsound) | one value less | 5 54 0003, 5 58 0001
node node | Err(Unsound) | the number of values in use | 5 58 0003
node node | Err(Unsound) | the first data block of the values | 5 50 0001
node node | Ok(()) | one value more | 5 54 0005, 5 72 ffff
node leaf | Err(Unsound) | the node form as a leaf form |
root node | Ok(()) | a leaf as the root |
root node | Err(Unsound) | an address under a leaf as the root | 2 78 000d
root node | Err(Unsound) | a left neighbour of the root | 2 6 0001
single single | Ok(()) | the single-block form |
single single | Err(Unsound) | an address | 0 4070 000d
single single | Err(Unsound) | a stale pair with an address | 0 4078 000c
single single | Err(Unsound) | the number of stale pairs | 0 4094 0000
single single | Err(Unsound) | another address of the last pair | 0 4086 000c
single single | Err(Unsound) | the number of pairs | 0 4090 0003
single single | Err(Unsound) | far more pairs | 0 4088 0001
single single | Err(Unsound) | a data block of another form | 0 2 4433
single single | Err(Unsound) | another inode of the directory | 0 64 0001
single single | Err(Unsound) | an unused span in front of the parent's entry | 0 48 0080 0f58 0050 0010, 0 80 ffff 0010, 0 94 0050, 0 96 0000000000000080 02 2e2e 02 0000 0060, 0 112 0000000000000083 01 61 01 000000 0070, 0 128 ffff 0f58, 0 4054 0080, 0 4068 0000000e, 0 4084 0000000c
";

/// The same with the size and the file blocks before the changes.
const SHAPES: &str = "\
leaf leaf | Ok(()) | the size and the file blocks | 16384 | 0 3 0x800000 |
leaf leaf | Err(Unsound) | a size inside a block | 16383 | 0 3 0x800000 |
leaf leaf | Err(Unsound) | a size without the last data block | 12288 | 0 3 0x800000 |
leaf leaf | Err(Unsound) | an index block behind its place | 16384 | 0 3 0x800001 |
leaf leaf | Err(Unsound) | values of another data block | 12288 | 0 2 0x800000 |
root node | Err(Unsound) | a block behind the root that is not in the tree | 16384 | 0 3 0x800000 0x800001 |
root node | Err(Unsound) | a block in front of the root that is not in the tree | 16384 | 0 3 0x7fffff 0x800000 |
root node | Err(Unsound) | a free block of other data blocks | 16384 | 0 3 0x800000 0x1000001 |
root node | Err(Unsound) | a free block of other data blocks that says so | 16384 | 0 3 0x800000 0x1000001 | 3 50 07e0
single single | Err(Unsound) | a size of two blocks | 8192 | 0 |
single single | Err(Unsound) | file block 1 | 4096 | 1 |
";

/// Fails where file blocks do not ascend from a least one on.
pub fn assert_ascending(rt: &impl Abort, least: u64, offsets: &[u64])
    ensures { OffsetsAscend least offsets.now }
{
    if let Some((first, rest)) = offsets.split_first() {
        sure(rt, least <= *first, "file blocks ascend");
        sure(rt, *first < 0x1_0000_0000, "a file block");
        assert_ascending(rt, *first + 1, rest);
    }
}

/// Puts bytes into blocks: in each line, or behind each comma, stand a block, a byte offset and the bytes.
fn put_blocks(rt: &(impl Abort + AllocGlobal), blocks: &mut BlockBank, text: &str) {
    for i in 0..line_count(text) {
        let line = line_at(text, i);
        for k in 0..part_count(line) {
            put_bytes(rt, blocks, part_at(line, k));
        }
    }
}

/// Puts the bytes of a part into a block.
fn put_bytes(rt: &(impl Abort + AllocGlobal), blocks: &mut BlockBank, mut row: Row) {
    let (block, at) = (row.number(rt), row.number(rt));
    sure(rt, block < blocks.len(), "a block of the bank");
    row.put(rt, blocks.view_mut(block), at);
}

/// The size and the file blocks of a form.
fn shape(form: &str) -> (&'static str, &'static str) {
    match form {
        "single" => ("4096", "0"),
        "leaf" => ("16384", "0 3 0x800000"),
        "root" => ("16384", "0 3 0x800000 0x1000000"),
        _ => ("16384", "0 3 0x800000 0x800001 0x800002 0x1000000"),
    }
}

/// The parts of the mapped blocks of a form.
fn parts_of(form: &str) -> [&'static str; 3] {
    match form {
        "single" => [SINGLE, "", ""],
        "leaf" => [DATA, LEAF, ""],
        "root" => [DATA, LEAF, ROOT],
        _ => [DATA, NODE, ""],
    }
}

/// Directory 100 in a form of this size, at these file blocks, with changes.
fn seen(
    rt: &(impl Abort + AllocGlobal),
    form: &str,
    size: &str,
    offsets: &str,
    changes: &str,
) -> DirSeen
    ensures mapped { length result.blocks ≡ length result.offsets.items }
    ensures ascending { OffsetsAscend 0 result.offsets.items }
{
    let alloc = rt.alloc();
    let offsets = Row::new(offsets).numbers(rt, alloc);
    let mut blocks = must(rt, BlockBank::make(alloc, offsets.len()));
    for parts in parts_of(form) {
        put_blocks(rt, &mut blocks, parts);
    }
    put_blocks(rt, &mut blocks, changes);
    assert_ascending(rt, 0, offsets.as_slice());
    sure(rt, blocks.len() == offsets.len(), "blocks");
    DirSeen {
        dir: 100,
        size: Row::new(size).number(rt),
        offsets,
        blocks,
    }
}

/// What the check of a form says.
pub fn check(alloc: Global, form: &str, dir: &DirSeen) -> Result<(), IndexFault>
    requires mapped { length dir.now.blocks ≡ length dir.now.offsets.items }
    requires ascending { OffsetsAscend 0 dir.now.offsets.items }
{
    match form {
        "single" => check_block(alloc, dir),
        "leaf" => check_leaf(alloc, dir),
        _ => check_node(alloc, dir),
    }
}

#[test]
fn forms_of_directories(rt: HostRuntime) {
    let rt = &rt;
    for i in 0..line_count(CASES) {
        let line = line_at(CASES, i);
        let mut row = Row::new(line);
        let (form, by) = (row.word(), row.word());
        let (answer, case) = (row.text(), row.text());
        let (size, offsets) = shape(form);
        let dir = seen(rt, form, size, offsets, row.text());
        tells(rt, &check(rt.alloc(), by, &dir), answer, case);
    }
}

#[test]
fn shapes_of_directories(rt: HostRuntime) {
    let rt = &rt;
    for i in 0..line_count(SHAPES) {
        let line = line_at(SHAPES, i);
        let mut row = Row::new(line);
        let (form, by) = (row.word(), row.word());
        let (answer, case) = (row.text(), row.text());
        let (size, offsets) = (row.text(), row.text());
        let dir = seen(rt, form, size, offsets, row.text());
        tells(rt, &check(rt.alloc(), by, &dir), answer, case);
    }
}
