//! What is to be placed.

use xfs_geom::{Geometry, InoRec, Run};
use xfs_volume::Records;

/// A run of blocks that is asked for.
#[derive(Clone, Copy)]
pub struct RunAsk {
    /// How many blocks it has.
    pub blocks: u32,
    /// The number of the inode that is to own it.
    pub owner: u64,
    /// The offset word of its first block.
    pub offset_word: u64,
}

/// What an object is.
#[derive(Clone, Copy)]
pub enum ObjectKind {
    Directory,
    Symlink,
    /// The data of a regular file.
    Data,
}

/// An object whose runs are to be placed.
#[derive(Drop)]
pub struct Object {
    /// The number of its inode.
    pub ino: u64,
    pub kind: ObjectKind,
    /// The runs that it asks for, in order.
    pub runs: Records<RunAsk>,
    /// How many runs it may take for them: an ask takes several where a single one is not to be had.
    pub most: u32,
}

/// The records of inodes of an allocation group.
#[derive(Drop)]
pub struct GroupInodes {
    pub records: Records<InoRec>,
}

/// What is to be placed in a volume, and what it holds already.
#[derive(Drop)]
pub struct Wanted {
    pub geometry: Geometry,
    /// The runs of what is kept.
    pub taken: Records<Run>,
    /// The runs of new chunks.
    pub new: Records<Run>,
    /// Blocks that nothing new may stand on, and that become free.
    pub reserved: Records<u64>,
    /// No run of an object begins before this AG block.
    pub from: u32,
    /// Of each group the AG block from which on its blocks are spared for its trees (`spare`), so that objects stand before it; of a group
    /// that lacks here no block is.
    pub spared_from: Records<u32>,
    /// Whether an object that finds no room before them may stand on spared blocks too.
    pub takes_spared: bool,
    /// The objects, in the order in which they are placed.
    pub objects: Records<Object>,
    /// The records of inodes of each group, in order.
    pub inodes: Records<GroupInodes>,
}
