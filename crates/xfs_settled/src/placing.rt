//! Laws about what is placed. Each function does nothing; its contract is the laws.

ghost use Rattle.xfs_settled.specs.Laws.Placing.{PlacedGroupsAreOneBlocks, PlacedGroupsAreOneChosen, PlacedGroupsAreOneGroup, PlacingsAreOneCounts, PlacingsAreOneGroups, PlacingsAreOneRuns};

/// What a group held before decides how many blocks its trees and its free list take, and which ones; and then all that stands in it: free
/// runs, chunks with a free inode, records of owners, the blocks of each tree, and the free list.
pub fn placed_groups_are_one()
    ensures chosen { PlacedGroupsAreOneChosen }
    ensures blocks { PlacedGroupsAreOneBlocks }
    ensures group { PlacedGroupsAreOneGroup }
{}

/// Of one request there is one placing: the runs of its objects, what stands in each group, and the counts of the superblock.
pub fn placings_are_one()
    ensures runs { PlacingsAreOneRuns }
    ensures groups { PlacingsAreOneGroups }
    ensures counts { PlacingsAreOneCounts }
{}
