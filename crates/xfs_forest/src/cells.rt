//! Blocks of a round, and what is found in them.

use xfs_disk::NoMemory;
use xfs_tree::{Found, Spot};

/// A block of a round, and what is found in it once it is judged.
#[derive(Drop)]
pub(crate) struct Cell<Record: Drop, Key: Drop> {
    pub spot: Spot<Key>,
    pub found: Result<Found<Record, Key>, NoMemory>,
}
