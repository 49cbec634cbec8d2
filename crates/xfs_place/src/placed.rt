//! Where everything stands.

use xfs_geom::{Counts, InoRec, RmapRec, Run, Span};
use xfs_volume::{Records, TreeBlocks};

/// The trees and the free list of an allocation group, and what they hold.
#[derive(Drop)]
pub struct GroupPlaced {
    /// The maximal runs of free AG blocks, by start.
    pub bno: Records<Span>,
    /// The same runs by length, and those of one length by start.
    pub cnt: Records<Span>,
    /// The chunks with a free inode.
    pub fino: Records<InoRec>,
    /// The runs of AG blocks with their owners.
    pub rmap: Records<RmapRec>,
    /// The blocks of the five trees, ascending: those by start, by length, of inodes, of free inodes and of owners.
    pub trees: Records<TreeBlocks>,
    /// The AG blocks of the free list, ascending.
    pub agfl: Records<u32>,
}

/// Where everything stands that was to be placed, and what the volume then holds.
#[derive(Drop)]
pub struct Placed {
    /// The runs of each ask in order, and of each ask from its first block to its last.
    pub runs: Records<Run>,
    /// How many runs each ask has, in order.
    pub cuts: Records<u32>,
    /// Each allocation group, in order.
    pub groups: Records<GroupPlaced>,
    pub counts: Counts,
}
