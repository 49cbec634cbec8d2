//! The blocks that are to be written.

use xfs_collections::BlockList;
use xfs_volume::Records;
use xfs_writing::Row;

/// The blocks that are to be written, each with the index of its bytes in the list. Blocks that are alike may share their bytes.
#[derive(Drop)]
pub struct Plan {
    /// The blocks that nothing kept stands on, ascending.
    pub fresh: Records<Row>,
    /// Those that are written in place, ascending.
    pub in_place: Records<Row>,
    pub bank: BlockList,
}
