//! What the blocks of a volume are made of.

use crate::wanted_slots::SlotWanted;
use xfs_collections::BlockList;
use xfs_disk::Stamp;
use xfs_volume::{Blocks, Records};

/// What the blocks of a volume are made of, besides what is placed in it.
#[derive(Drop)]
pub struct Bytes {
    /// An accepted superblock of the volume.
    pub sector: [u8; 512],
    /// The numbers of the first block of each group and of the blocks of all clusters.
    pub places: Blocks,
    /// Their bytes, in the same order.
    pub old: BlockList,
    /// The blocks of the runs of all objects that are not unwritten, in order.
    pub objects: BlockList,
    /// What is wanted of slots, by the numbers of their inodes.
    pub slots: Records<SlotWanted>,
    /// The cycle of a log that is to be blank; the log stays where there is none.
    pub cycle: Option<u32>,
    pub stamp: Stamp,
}
