//! Counters of groups and of the superblock.

ghost use Rattle.std.specs.Prelude.{◌≡◌, ◌+◌, ◌*◌, ◌^◌, ◌<◌, ◌≤◌, length, sum, map};
ghost use Rattle.xfs_geom.specs.Sums.{slots, free_slots};
ghost use Rattle.xfs_geom.specs.Volumes.{volume_of};
ghost use Rattle.xfs_volume.specs.Laws.{first_broken};
ghost use Rattle.xfs_laws.specs.Counting.{counter_laws, by_group, group_counts, room, spare_tree_blocks, count_tree_blocks, volume_counts};
ghost use Rattle.xfs_volume.specs.Laws.{law_at};

use crate::broken::first_broken;
use xfs_geom::{Counts, Geometry, free_blocks, free_slots, longest, slots};
use xfs_volume::{GroupRec, Law, TreeBlocks};

/// The first counter of the groups and of the superblock that is not the number that it should be.
pub fn check_counters(g: &Geometry, groups: &[GroupRec], counts: &Counts) -> Option<Law>
    requires { length groups.now ≤ 512 }
    ensures { result ≡ first_broken (counter_laws (volume_of g.now) groups.now counts.now) }
{
    match check_groups(groups) {
        Some(law) => Some(law),
        None => first_broken(&volume_counts(g, groups, counts)),
    }
}

/// The first counter of the groups that is not the number that it should be.
fn check_groups(groups: &[GroupRec]) -> Option<Law>
    requires { length groups.now ≤ 512 }
    ensures { result ≡ first_broken (by_group group_counts 0 groups.now) }
{
    let mut ag = 0;
    for group in groups {
        if let Some(law) = first_broken(&group_counts(ag, group)) {
            return Some(law);
        }
        ag += 1;
    }
    None
}

/// The counters of a group, with what they should be.
fn group_counts(ag: u32, group: &GroupRec) -> [Law; 6]
    requires { ag < 512 }
    ensures { result ≡ group_counts ag group.now }
{
    let place = 8 * ag as u64;
    let trees = group.blocks.as_slice();
    let chunks = group.ino.as_slice();
    let free = group.bno.as_slice();
    [
        counter(place, group.agf.freeblks as u128, free_blocks(free)),
        counter(place + 1, group.agf.longest as u128, longest(free) as u128),
        counter(
            place + 2,
            group.agf.btreeblks as u128,
            spare_tree_blocks(trees),
        ),
        counter(
            place + 3,
            group.agf.rmapblocks as u128,
            count_tree_blocks(trees, 4),
        ),
        counter(place + 4, group.agi.count as u128, slots(chunks)),
        counter(place + 5, group.agi.freecount as u128, free_slots(chunks)),
    ]
}

/// A counter with what it should be.
fn counter(place: u64, held: u128, due: u128) -> Law
    ensures { result ≡ law_at 5 place held due }
{
    Law {
        law: 5,
        place,
        held,
        due,
    }
}

/// The counters of the superblock, with what they should be.
fn volume_counts(g: &Geometry, groups: &[GroupRec], counts: &Counts) -> [Law; 3]
    requires { length groups.now ≤ 512 }
    ensures { result ≡ volume_counts (volume_of g.now) groups.now counts.now }
{
    let place = 8 * g.agcount as u64;
    let mut inodes = 0;
    let mut free_inodes = 0;
    let mut blocks = 0;
    for group in groups {
        inodes += slots(group.ino.as_slice());
        free_inodes += free_slots(group.ino.as_slice());
        blocks += room(group);
    }
    [
        counter(place, counts.icount as u128, inodes),
        counter(place + 1, counts.ifree as u128, free_inodes),
        counter(place + 2, counts.fdblocks as u128, blocks),
    ]
}

/// The free blocks of a group, those of its free list and those that its trees could spare.
fn room(group: &GroupRec) -> u128
    ensures value { result ≡ room group.now }
    ensures less { result < 2 ^ 100 }
{
    free_blocks(group.bno.as_slice())
        + group.agf.flcount as u128
        + spare_tree_blocks(group.blocks.as_slice())
}

/// The blocks of the trees by start, by length and by owner, but for one each.
fn spare_tree_blocks(trees: &[TreeBlocks]) -> u128
    ensures value { result ≡ spare_tree_blocks trees.now }
    ensures less { result < 2 ^ 66 }
{
    (count_tree_blocks(trees, 0)
        + count_tree_blocks(trees, 1)
        + count_tree_blocks(trees, 4)).saturating_sub(3)
}

/// The blocks of one of the trees, by its place among them.
fn count_tree_blocks(trees: &[TreeBlocks], tree: usize) -> u128
    ensures value { result ≡ count_tree_blocks trees.now tree }
    ensures less { result < 2 ^ 64 }
{
    if tree >= trees.len() {
        return 0;
    }
    trees[tree].blocks.as_slice().len() as u128
}
