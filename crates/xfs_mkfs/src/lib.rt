//! Makes a volume on a disk.
//!
//! What `mkfs.xfs` does, over any disk and library: it chooses the sizes, looks whether there is a volume, takes the files of
//! a protofile or generates some where that is asked for, plans all blocks, and writes them between two syncs, and behind these block 0, which
//! a third one keeps. Each outcome says what the disk then holds, how many blocks were written, and what a stop of the
//! machine leaves.
//!
//! `xfs_tools` calls it so:
//!
//! ```text
//! let outcome = make(rt, alloc, disk, files, &line.options, stamp);
//! ```
#![tactic(auto)]

mod files;
mod laws;
mod marks;
mod order;
mod outcome;
mod preparing;
mod sharing;
mod volume;
mod volume_making;

pub use laws::made_root_inside;
pub use outcome::{MadeSummary, MakeOutcome};
pub use volume_making::make;
