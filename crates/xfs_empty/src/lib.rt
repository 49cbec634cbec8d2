//! An empty volume: its geometry and superblock, a root directory and the two system inodes, the trees of its groups, and a blank log.
//!
//! From what is asked of sizes to a geometry that keeps every bound, or to the first bound that is broken; the superblock that
//! states this geometry, sealed; and the plan of all blocks of a new volume without files, from these two alone. Nothing is read or
//! written.
//!
//! `xfs_mkfs` goes so:
//!
//! ```text
//! let g = match choose(&asked, blocks, uuid) {
//!     Ok(g) => g,
//!     Err(what) => return MakeOutcome::TooSmall { what },
//! };
//! put_super(&g, label, &mut sector);
//! let plan = match plan_empty(rt, alloc, &g, &sector, stamp) {
//!     Ok(plan) => plan,
//!     Err(PlaceFault::NoRoom(place)) => return MakeOutcome::NoRoom(place),
//!     Err(PlaceFault::NoMemory) => return MakeOutcome::NoMemory,
//! };
//! ```
#![tactic(auto)]

mod asked;
mod bytes;
mod planning;
mod roots;
mod sizes;
mod superblock;
mod wanted;

pub use asked::SizesAsked;
pub use bytes::empty_bytes;
pub use planning::plan_empty;
pub use roots::{ROOT_INODE, fresh_core, system_slot, time_of, unused_slot};
pub use sizes::choose;
pub use superblock::put_super;
pub use wanted::empty_wanted;
