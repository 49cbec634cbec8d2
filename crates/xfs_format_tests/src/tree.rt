//! Sizes of packed trees, packing, and a kind of tree.

ghost use Rattle.std.specs.Prelude.{ℕ, ◌≤◌, length, None, IsTrue};
ghost use Rattle.xfs_geom.specs.Volumes.{Volume};
ghost use Rattle.xfs_format_tests.specs.Numbers.{numbers_shape};
ghost use Rattle.xfs_tree.specs.Rules.{are_lawful};

mod forest;
mod hostile;
mod numbers;

use crate::checks::{equal, equal_at, sure};
use crate::text::{Row, line_at, line_count, part_at, part_count, tells};
use numbers::Numbers;
use std::cmp::Ordering;
use std::process::Abort;
use xfs_geom::Geometry;
use xfs_tree::*;
use xfs_treebuild::{pack, tree_size};
use xfs_word::get16;

/// The most records of a leaf and children of a node, the records of a tree and its blocks.
const SIZES: &str = "\
168 91 169 3
505 336 0 1
252 505 253 3
505 336 505 1
505 336 169680 337
505 336 169681 340
";

#[test]
fn sizes(rt: HostRuntime) {
    let rt = &rt;
    for i in 0..line_count(SIZES) {
        let line = line_at(SIZES, i);
        let mut row = Row::new(line);
        let (leaf_cap, node_cap) = (row.number(rt), row.number(rt));
        let records = row.number(rt);
        sure(rt, leaf_cap > 0, line);
        sure(rt, node_cap > 1, line);
        sure(rt, records < 1 << 62, line);
        equal_at(
            rt,
            tree_size(leaf_cap, node_cap, records),
            row.number(rt),
            line,
        );
    }
}

#[test]
fn a_kind(rt: HostRuntime) {
    let rt = &rt;
    let kind = Numbers { ag: 3 };
    let layout = tree_layout(&kind);
    equal(rt, layout.header_len(), 56);
    equal(rt, layout.pointer_len(), 4);
    equal(rt, layout.leaf_cap, 3);
    equal(rt, kind.owner(), 3);
    let mut bytes = [0; 4];
    kind.put_record(&0x0102_0304, &mut bytes);
    tells(rt, &bytes, "[1, 2, 3, 4]", "a number");
    equal(rt, kind.read_record(&bytes), 0x0102_0304);
    equal(rt, kind.order(&7, &8), Ordering::Less);
}

/// Places of blocks in the first group.
const PLACES: [u64; 11] = [100, 101, 102, 103, 104, 105, 106, 107, 108, 109, 110];

/// Packs numbers in the first group of a volume of two groups of 1024 blocks, with its log at AG block 6 of the
/// second, and compares the level and the count of each block.
fn assert_packed(rt: &(impl Abort + AllocGlobal), records: &[u32], blocks: &str)
    requires lawful { (v : Volume) → IsTrue (are_lawful (numbers_shape 0) v None records.now) }
    requires few { length records.now ≤ 13 }
{
    let g = Geometry {
        dblocks: 2048,
        agblocks: 1024,
        agcount: 2,
        agblklog: 10,
        log: 1030,
        logblocks: 512,
        rootino: 128,
        logsectlog: 0,
        uuid: [7; 16],
    };
    let size = tree_size(3, 2, records.len() as u64) as usize;
    sure(rt, size <= 11, blocks);
    let mut part = [0xaa; 45056];
    pack(
        &Numbers { ag: 0 },
        &g,
        records,
        &PLACES[..size],
        &mut part[..4096 * size],
    );
    assert_rows(rt, &part[..4096 * size], blocks);
}

/// Compares the level, the count and the last byte of each block.
fn assert_rows(rt: &(impl Abort + AllocGlobal), part: &[u8], blocks: &str) {
    equal_at(
        rt,
        part.len(),
        part_count(blocks).saturating_mul(4096),
        blocks,
    );
    let mut rest = part;
    for i in 0..part_count(blocks) {
        sure(rt, rest.len() >= 4096, blocks);
        let mut due = part_at(blocks, i);
        let numbers = (due.number(rt), due.number(rt), 0);
        equal_at(
            rt,
            (get16(rest, 4), get16(rest, 6), rest[4095]),
            numbers,
            blocks,
        );
        rest = &rest[4096..];
    }
}

#[test]
fn packed_blocks(rt: HostRuntime) {
    let rt = &rt;
    assert_packed(rt, &[], "0 0");
    assert_packed(rt, &[5], "0 1");
    assert_packed(rt, &[5, 6, 7], "0 3");
    assert_packed(rt, &[5, 6, 7, 9], "0 2, 0 2, 1 2");
    assert_packed(rt, &[1, 2, 3, 4, 5, 6, 7], "0 3, 0 2, 0 2, 1 2, 1 1, 2 2");
    assert_packed(
        rt,
        &[1, 2, 3, 4, 5, 6, 7, 8, 9, 10, 11, 12, 13],
        "0 3, 0 3, 0 3, 0 2, 0 2, 1 2, 1 2, 1 1, 2 2, 2 1, 3 2",
    );
}
