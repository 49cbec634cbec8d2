//! Allocation groups, as they are read.

use crate::lists::{Blocks, Records};
use xfs_geom::{InoRec, RmapRec, Span};
use xfs_heads::{Agf, Agfl, Agi};

/// The blocks of one tree of a group.
#[derive(Drop)]
pub struct TreeBlocks {
    /// Their block numbers, level by level from the root, each from the left.
    pub blocks: Blocks,
}

/// An allocation group: its headers and the records of its trees (chapter "Allocation Groups").
#[derive(Drop)]
pub struct GroupRec {
    pub agf: Agf,
    pub agi: Agi,
    pub agfl: Agfl,
    /// The free runs of AG blocks, by start.
    pub bno: Records<Span>,
    /// The free runs of AG blocks, by length and then start.
    pub cnt: Records<Span>,
    /// The chunks of inodes.
    pub ino: Records<InoRec>,
    /// The chunks with a free inode.
    pub fino: Records<InoRec>,
    /// The runs of AG blocks with their owners.
    pub rmap: Records<RmapRec>,
    /// The blocks of the five trees, in the order of the five records above.
    pub blocks: Records<TreeBlocks>,
}
