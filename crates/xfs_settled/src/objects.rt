//! A law about the blocks of directories, symbolic links and files. The function does nothing; its contract is the law.

ghost use Rattle.xfs_settled.specs.Laws.Objects.{ObjectBlocksAreOne};

/// Of the bytes that were built for a block of an object there is one block at its place, where they have the magic number of what they
/// are sealed as.
pub fn object_blocks_are_one()
    ensures { ObjectBlocksAreOne }
{}
