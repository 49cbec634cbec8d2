//! The trees of two levels, two of them read together by one, two and three workers.

ghost use Rattle.std.specs.Prelude.{◌≡◌, ◌<◌, ◌≤◌};

use super::hostile::{BROKEN, WHOLE, disk_of, volume};
use super::numbers::Numbers;
use crate::checks::{equal, equal_at, must};
use crate::text::{Row, line_at, line_count, refuse, tells};
use std::alloc::Global;
use std::marker::Brand;
use std::process::Abort;
use std::sync::ledger::{Blank, Ledger};
use std::thread::Threads;
use xfs_collections::Steps;
use xfs_disk::{Disk, NoGate, NoMemory};
use xfs_forest::{ForestFault, Plant, read_forest};
use xfs_memory::MemoryDisk;
use xfs_tree::{Seat, Tree, Unread};

/// What trees read as.
type Grown = Vec<Result<Tree<Numbers>, Unread>>;

/// Adds the tree of so many levels with this root.
fn push_plant(
    alloc: Global,
    root: u64,
    height: u32,
    plants: &mut Vec<Plant<Numbers>>,
) -> Result<(), NoMemory> {
    let seat = Seat {
        place: root,
        low: None,
        high: None,
    };
    plants.push(Plant {
        kind: Numbers { ag: 0 },
        tops: Vec::from_slice(alloc, &[seat])?,
        height,
    })?;
    Ok(())
}

/// The tree of two levels at block 20, its right leaf as if it were a tree, and the first one again.
fn plants(alloc: Global) -> Result<Vec<Plant<Numbers>>, NoMemory> {
    let mut plants = Vec::new(alloc);
    push_plant(alloc, 20, 1, &mut plants)?;
    push_plant(alloc, 22, 0, &mut plants)?;
    push_plant(alloc, 20, 1, &mut plants)?;
    Ok(plants)
}

/// What the trees read as, with their steps counted.
fn read<R: Threads + Sync, D: Disk, L: Ledger>(
    rt: &R,
    alloc: Global,
    disk: &mut D,
    plants: Vec<Plant<Numbers>>,
    workers: u32,
    blank: Blank,
) -> Result<Grown, ForestFault>
    requires name { blank.name ≡ L.name }
    requires parts { blank.parts ≡ L.parts }
    requires some { 0 < blank.parts }
    requires inside { 2048 ≤ D.size disk.old }
{
    let mut steps = Steps::<L>::from_blank(blank);
    read_forest(
        rt,
        alloc,
        &volume(),
        disk,
        plants,
        workers,
        &NoGate,
        &mut steps,
    )
}

/// What the trees of the disk read as.
fn grown<R: Threads + Sync + Abort>(
    rt: &R,
    alloc: Global,
    disk: &mut MemoryDisk,
    workers: u32,
) -> Grown {
    assert!(rt; matches!(disk.blocks(), Ok(count) if 2048 <= count));
    let plants = must(rt, plants(alloc));
    must(
        rt,
        read::<R, MemoryDisk, Brand>(rt, alloc, disk, plants, workers, Blank::new(1)),
    )
}

#[test]
fn broken_trees_together(rt: HostRuntime) {
    for i in 0..line_count(BROKEN) {
        let line = line_at(BROKEN, i);
        try_broken(&rt, line);
    }
}

fn try_broken<R: Threads + Sync + Abort + AllocGlobal>(rt: &R, line: &str) {
    let alloc = rt.alloc();
    let mut row = Row::new(line);
    let what = row.text();
    let blocks = [row.text(), row.text(), row.text()];
    let due = row.text();
    let wrong = (what == "checksum") as u8;
    let mut disk = disk_of(rt, alloc, blocks, wrong);
    for workers in 0..4 {
        let grown = grown(rt, alloc, &mut disk, workers);
        equal_at(rt, grown.len(), 3, what);
        assert_broken(rt, grown.get(0), due, what);
        assert_broken(rt, grown.get(2), due, what);
    }
}

/// Compares the block and the rule that are found broken.
fn assert_broken(
    rt: &(impl Abort + AllocGlobal),
    tree: Option<&Result<Tree<Numbers>, Unread>>,
    due: &str,
    what: &str,
) {
    match tree {
        Some(Err(fault)) => tells(rt, fault, due, what),
        _ => refuse(rt, "this is not found", what),
    }
}

#[test]
fn whole_trees_together(rt: HostRuntime) {
    let rt = &rt;
    let alloc = rt.alloc();
    let mut disk = disk_of(rt, alloc, WHOLE, 0);
    for workers in 0..4 {
        let grown = grown(rt, alloc, &mut disk, workers);
        equal(rt, grown.len(), 3);
        assert_whole(rt, grown.get(0));
        assert_broken(
            rt,
            grown.get(1),
            "Unread { block: 22, rule: 8 }",
            "a leaf with a sibling",
        );
        assert_whole(rt, grown.get(2));
    }
}

/// Compares what the whole tree has.
fn assert_whole(rt: &(impl Abort + AllocGlobal), tree: Option<&Result<Tree<Numbers>, Unread>>) {
    match tree {
        Some(Ok(tree)) => {
            tells(rt, &tree.records.as_slice(), "[10, 20, 30]", "records");
            tells(rt, &tree.blocks.as_slice(), "[20, 21, 22]", "blocks");
        }
        _ => refuse(rt, "the tree is not read", ""),
    }
}
