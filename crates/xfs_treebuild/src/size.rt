//! How many blocks a packed tree has.

ghost use Rattle.std.specs.Prelude.{◌≡◌, ℕ, ◌+◌, ◌*◌, ◌^◌, ◌<◌, ◌≤◌};
ghost use Rattle.std.specs.List.{sum};
ghost use Rattle.xfs_treebuild.specs.Size.{blocks_for, rows_of};

/// The blocks of a packed tree of this many records, where a leaf has room for `leaf_cap` records and a
/// node for `node_cap` children.
pub fn tree_size(leaf_cap: u64, node_cap: u64, records: u64) -> u64
    requires leaves { 1 ≤ leaf_cap }
    requires nodes { 2 ≤ node_cap }
    requires records { records < 2 ^ 62 }
    ensures { result ≡ sum (rows_of leaf_cap node_cap records) }
{
    let mut row = blocks_for(leaf_cap, records);
    let mut size = row;
    while row > 1 {
        row = blocks_for(node_cap, row);
        size += row;
    }
    size
}

/// The blocks that hold so many items, at most `most` each: at least one.
pub fn blocks_for(most: u64, items: u64) -> u64
    requires some { 1 ≤ most }
    requires items { items < 2 ^ 63 }
    ensures value { result ≡ blocks_for most items }
    ensures some { 1 ≤ result }
    ensures few { result ≤ items + 1 }
    ensures fewer { 2 ≤ most → 2 ≤ items → 2 * result ≤ items + 1 }
{
    if items == 0 {
        1
    } else {
        (items - 1) / most + 1
    }
}
