//! Trees that are to be read.

use xfs_tree::{Kind, Seat};

/// A tree that is to be read, from its blocks of one level down.
#[derive(Drop)]
pub struct Plant<K: Kind + Drop> {
    pub kind: K,
    /// The blocks of its top level, from the left, whose neighbours are not asked. A root is one block without keys.
    pub tops: Vec<Seat<K::Key>>,
    /// The level of these blocks, 0 for leaves.
    pub height: u32,
}
