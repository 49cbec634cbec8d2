//! Laws about the headers of groups. Each function does nothing; its contract is the law.

ghost use Rattle.xfs_settled.specs.Laws.Heads.{HeaderBlocksAreOne, SuperblocksAreOne};

/// Of one superblock, with one set of counters, there is one that is written anew: no byte of it is left open.
pub fn superblocks_are_one()
    ensures { SuperblocksAreOne }
{}

/// With one superblock, of one old block and what is placed in one group, there is one block with the headers of the group.
pub fn header_blocks_are_one()
    ensures { HeaderBlocksAreOne }
{}
