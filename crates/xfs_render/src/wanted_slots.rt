//! What is to be made of slots of inodes.

use xfs_inodebuild::ForkWanted;
use xfs_volume::Core;

/// What a slot is before anything else is changed in it.
#[derive(Clone, Copy)]
pub enum SlotBase {
    /// What it was.
    Kept,
    /// A free inode.
    Free,
    /// An inode of this core, with an empty data fork and no attributes.
    Fresh(Core),
}

/// What is to be made of a slot: the changes are made in the order of the fields.
#[derive(Drop)]
pub struct SlotWanted {
    /// The number of its inode.
    pub ino: u64,
    pub base: SlotBase,
    /// All attributes are dropped, where this tells the blocks that the file then has.
    pub drop_attrs: Option<u64>,
    /// The data fork, where it is replaced.
    pub fork: Option<ForkWanted>,
    /// How many names the file has, where that is set.
    pub nlink: Option<u32>,
}
