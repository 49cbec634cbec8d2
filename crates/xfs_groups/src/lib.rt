//! The allocation groups of an image, read from a disk: their headers and trees, the clusters of inodes that they have, and the
//! blocks on which nothing new is placed.
//!
//! The first look at a volume: all headers and trees are read, in the order in which they are judged, and from them, or
//! where they fail from the bytes of the blocks, it is known where inodes may stand.
//!
//! `xfs_scan` begins so:
//!
//! ```text
//! let seen = match see_groups(rt, alloc, g, disk, looks, workers, gate, steps) { .. };
//! // seen.groups: each group, or the first part that does not read; seen.clusters; seen.trees
//! ```
#![tactic(auto)]

mod faults;
mod forests;
mod groups;
mod heads;
mod looking;
mod named;
mod one_group;
mod parts;
mod recorded;
mod roots;
mod scanned;
mod sets;
mod sweep;
mod trees;

pub use faults::GroupsFault;
pub use groups::{GroupTrees, Groups, see_groups};
pub use looking::is_slot_block;
