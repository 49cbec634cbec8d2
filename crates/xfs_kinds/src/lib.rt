//! The six kinds of B+tree of a volume (chapter "Common B+trees"), and runs of its blocks.
//!
//! What one kind of tree is: its records and keys, how they are put into bytes, which record may follow which.
//! Reading and packing then work for it, with all their promises. The runs of a group's blocks, those without an owner
//! and those that can be joined, are found here.
//!
//! `xfs_groups` reads the trees of free space of all groups, and `xfs_space` says what each should hold:
//!
//! ```text
//! let trees = read_forest(rt, alloc, g, disk, plants, workers, gate, steps)?; // a plant of kind Bno { ag } for each group
//! let free = free_runs(alloc, &used, g.group_length(ag))?;
//! ```
#![tactic(auto)]

mod chunks;
mod file_trees;
mod free_trees;
mod gaps;
mod groups;
mod inode_trees;
pub mod layouts;
mod lengths;
mod merging;
mod offset_words;
mod owner_trees;
mod owners;
mod spans;

pub use chunks::{is_missing, missing_bits};
pub use file_trees::Bmbt;
pub use free_trees::{Bno, Cnt};
pub use gaps::free_runs;
pub use inode_trees::{Fino, Ino};
pub use lengths::by_length;
pub use merging::merge_runs;
pub use offset_words::is_unwritten;
pub use owner_trees::Rmap;
pub use owners::RmapKey;
