//! The newest chunk of a group, and the levels of its trees, as headers state them.

ghost use Rattle.std.specs.Prelude.{◌≡◌, ◌≤◌, ◌<◌, ◌^◌};
ghost use Rattle.xfs_render.specs.Counters.{levels, newest};

use xfs_geom::InoRec;
use xfs_treebuild::blocks_for;

/// The first inode of the last chunk; all ones where there is none.
pub fn newest(records: &[InoRec]) -> u32
    ensures { result ≡ newest records.now }
{
    match records.last() {
        Some(record) => record.startino,
        None => u32::MAX,
    }
}

/// The levels of a packed tree of so many records.
pub fn levels(leaf_cap: u64, node_cap: u64, records: usize) -> u32
    requires leaves { 16 ≤ leaf_cap }
    requires nodes { 16 ≤ node_cap }
    requires records { records < 2 ^ 28 }
    ensures value { result ≡ levels leaf_cap node_cap records }
    ensures some { 1 ≤ result }
    ensures few { result ≤ 9 }
{
    let mut row = blocks_for(leaf_cap, records as u64);
    let mut levels = 1;
    while row > 1 {
        row = blocks_for(node_cap, row);
        levels += 1;
    }
    levels
}
