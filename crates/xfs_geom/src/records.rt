//! Plain records of a volume: runs of blocks, the records of its trees and its counters.

/// A run of blocks inside one allocation group, as the free space trees record it (chapter "AG Free
/// Space Management").
#[derive(Clone, Copy, Debug, PartialEq, Eq, PartialOrd, Ord)]
pub struct Span {
    /// The first AG block.
    pub start: u32,
    /// How many blocks there are.
    pub count: u32,
}

/// A run of blocks of the volume with what it belongs to (chapter "Reverse-Mapping B+tree").
#[derive(Clone, Copy, Debug, PartialEq, Eq, PartialOrd, Ord)]
pub struct Run {
    /// The number of the first block, counted from the start of the image.
    pub start: u64,
    /// How many blocks there are.
    pub count: u64,
    /// The number of the inode that owns the blocks, or one of the owners below 0 in two's complement.
    pub owner: u64,
    /// The offset word: the offset in the owner's fork, in blocks, below three flags.
    pub offset_word: u64,
}

/// A record of an inode tree: a chunk of up to 64 inodes (chapter "AG Inode Management").
#[derive(Clone, Copy, Debug, PartialEq, Eq)]
pub struct InoRec {
    /// The first inode's number inside its group: its AG block times 8.
    pub startino: u32,
    /// A bit for each four inodes, set where they are missing.
    pub holemask: u16,
    /// How many inodes are not missing.
    pub count: u8,
    /// How many of those are free.
    pub freecount: u8,
    /// A bit for each inode, set where it is free.
    pub free: u64,
}

/// A record of the reverse-mapping tree: a run of blocks of one group with its owner (chapter
/// "Reverse-Mapping B+tree").
#[derive(Clone, Copy, Debug, PartialEq, Eq)]
pub struct RmapRec {
    /// The first AG block.
    pub start: u32,
    /// How many blocks there are.
    pub count: u32,
    /// The number of the inode that owns the blocks, or one of the owners below 0 in two's complement.
    pub owner: u64,
    /// The offset word: the offset in the owner's fork, in blocks, below three flags.
    pub offset_word: u64,
}

/// The counters of a superblock (chapter "Superblocks").
#[derive(Clone, Copy, Debug, PartialEq, Eq)]
pub struct Counts {
    /// The inodes that are allocated, in use or free.
    pub icount: u64,
    /// The inodes that are allocated and free.
    pub ifree: u64,
    /// The free blocks.
    pub fdblocks: u64,
}
