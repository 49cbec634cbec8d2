//! B+trees of any kind, built: how many blocks a packed tree has, and records packed into them (chapter "Common B+trees").
//!
//! From records to the blocks of a tree. Who places a tree asks how many blocks it takes, and who renders it hands in as
//! many places and gets the blocks, with which `read_tree` of `xfs_tree` gives the records back. Nothing takes memory.
//!
//! `xfs_place` counts and `xfs_render` packs so:
//!
//! ```text
//! let blocks = tree_size(leaf_cap, node_cap, records.len() as u64);
//! pack(kind, g, records, places, &mut part); // 4096 bytes of `part` for each place
//! ```
#![tactic(auto)]

mod blocks;
mod heads;
mod leaves;
mod neighbours;
mod nodes;
mod packing;
mod size;

pub use packing::pack;
pub use size::{blocks_for, tree_size};
