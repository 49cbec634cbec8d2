//! The bytes of a volume that is written anew: the headers of its allocation groups, their trees, clusters of inodes,
//! blocks of directories and files, superblocks and a blank log.
//!
//! From what is wanted and where it is placed to blocks: a plan that names each block once and has its bytes, for a
//! caller that writes it. An image that holds the planned blocks says just that volume.
//!
//! `xfs_empty` renders an empty volume so:
//!
//! ```text
//! let placed = place(alloc, wanted)?;
//! let plan = render(rt, alloc, wanted, &placed, bytes, WORKERS, &NoGate)?;
//! // plan.fresh, plan.in_place: block numbers, each with the index of its bytes in plan.bank
//! ```
#![tactic(auto)]

mod arranging;
mod bytes;
mod clusters;
mod counters;
mod draft;
mod header_block;
mod heads;
mod log;
mod new_blocks;
mod object_blocks;
mod object_seals;
mod objects;
mod plan;
mod readiness;
mod rendering;
mod slots;
mod trees;
mod wanted_slots;

pub use bytes::Bytes;
pub use clusters::find_slot;
pub use plan::Plan;
pub use readiness::{chunks_are_few, placed_is_ready};
pub use rendering::render;
pub use wanted_slots::{SlotBase, SlotWanted};
pub use xfs_inodebuild::ForkWanted;
