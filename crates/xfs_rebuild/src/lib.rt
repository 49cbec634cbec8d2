//! What is written of a volume that is rebuilt round what is kept of it.
//!
//! Whoever mends a volume hands in its evidence. What can be kept is salvaged, the trees of the groups are placed round it, and the blocks that then
//! differ from those on the disk are planned. The disk is only read here.
//!
//! A caller would write:
//!
//! ```text
//! match plan_rebuild(rt, alloc, disk, &chosen, evidence, stamp, gate, &mut steps) {
//!     Ok(rebuilt) => write_parts(disk, &rebuilt.bank, rebuilt.fresh.as_slice(), rebuilt.in_place.as_slice()),
//!     Err(RebuildFault::Names(due)) => ..,         // a name has to change: see `xfs_rename`
//!     ..
//! }
//! ```
#![tactic(auto)]

mod bytes;
mod changes;
mod differing;
mod due_files;
mod faults;
mod found;
mod laws;
mod names;
mod names_due;
mod places;
mod planning;
mod rendering;
mod seen;

pub use bytes::{gather_bytes, kept_numbers};
pub use faults::RebuildFault;
pub use laws::{images_can_be_rebuilt, known_names_are_in_order};
pub use names_due::{BoxedNames, NamesDue};
pub use planning::{Rebuilt, plan_rebuild};
pub use rendering::plan_placed;
pub use xfs_request::{SlotSeen, inodes_wanted, taken_runs};
