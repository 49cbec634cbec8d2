//! Files, as they are read from an inode and the blocks that it names.

use crate::cores::Core;
use crate::extents::Extents;
use crate::rest::Rest;

/// A file with all that its inode says of it.
#[derive(Debug, Drop)]
pub struct FileRec {
    /// The number of its inode.
    pub ino: u64,
    pub core: Core,
    /// The extents of its data, in file order.
    pub extents: Extents,
    /// Its attributes with their extents, the tree of its extents, its target and the number of its device: what most files have
    /// nothing of.
    pub rest: Rest,
}
