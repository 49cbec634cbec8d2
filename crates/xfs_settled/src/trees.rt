//! Laws about the blocks of trees. Each function does nothing; its contract is the law.

ghost use Rattle.xfs_settled.specs.Laws.Trees.{GroupTreesAreOne, TreeBlocksAreOne};

/// Two images of one size that have the trees of a group as they are placed, each on as many blocks as its records need, have the same
/// bytes in each block of these trees.
pub fn group_trees_are_one()
    ensures { GroupTreesAreOne }
{}

/// And where they have the trees of all groups that are placed for a request, in each block of any tree.
pub fn tree_blocks_are_one()
    ensures { TreeBlocksAreOne }
{}
