//! Why no rebuild is planned.

use crate::names_due::BoxedNames;
use xfs_place::Unplaced;

/// Why no rebuild is planned.
#[derive(Drop)]
pub enum RebuildFault {
    /// A name or a directory would have to change; this is what is known of the volume.
    Names(BoxedNames),
    /// The volume has no room for this, the first that finds none.
    NoRoom(Unplaced),
    /// A read failed.
    ReadFault,
    /// There is not enough memory.
    NoMemory,
}
