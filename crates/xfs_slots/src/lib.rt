//! The slots of clusters, taken up one by one: what each is by itself, and the files, entries and directories that they give.
//!
//! What is read of inodes, whoever names their clusters: the trees of the groups, or what looks like inodes. Each slot adds to
//! `Inodes` what it has; one that has no file is passed over and noted. The crate knows no group, so it stands beside
//! `xfs_groups`.
//!
//! `xfs_scan` takes up the blocks of a round, whose slots were judged by themselves, so:
//!
//! ```text
//! take_round(alloc, g, disk, round, &bank, judged, &mut slots, &mut inodes, steps)?; // of each slot by itself, and the files that they give
//! ```
#![tactic(auto)]

mod blocks;
mod clusters;
mod faults;
mod inodes;
mod recorded;
mod rounds;
mod slots;

pub use blocks::{blocks_of, blocks_of_candidates};
pub use clusters::see_block;
pub use faults::PartFault;
pub use inodes::{InodeFeature, Inodes};
pub use recorded::clusters_of;
pub use rounds::take_round;
