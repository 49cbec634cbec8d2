//! The first thing that is wrong with an image.

use xfs_volume::Law;

/// The first thing that is wrong with an image.
#[derive(Clone, Copy, Debug)]
pub enum Finding {
    /// A part of the image does not read: 0 the geometry is not elected from block 0 (at place 0); at the number of their
    /// group 1 the header of its free space, 2 the header of its inodes, 3 its free list, 4 the tree of free runs by start,
    /// 5 that by length, 6 the tree of chunks of inodes, 7 that of chunks with a free inode, 8 the tree of owners; 9 the slot
    /// of an inode, at its number; 10 the backup superblock of a group does not agree, at the number of the group.
    Part { part: u8, place: u64 },
    /// A law is broken.
    Law(Law),
}
