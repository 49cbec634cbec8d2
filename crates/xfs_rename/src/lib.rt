//! What is written of a volume in which names have to change: directories are built anew, files without a name go to
//! lost+found, and a lost root comes back.
//!
//! `xfs_rebuild` refuses such a volume and says what it found (`NamesDue`). From there on: which names there are to be
//! (`xfs_links`, `xfs_names`), where lost+found stands, which blocks the directories that are built anew take, what of slots
//! changes by that (`xfs_changes`), and the blocks that then differ from those on the disk. The disk is only read.
//!
//! A caller would write:
//!
//! ```text
//! match plan_rebuild(rt, alloc, disk, &chosen, evidence, stamp, gate, &mut steps) {
//!     Err(RebuildFault::Names(due)) => plan_names(rt, alloc, disk, &chosen, due, stamp, gate, &mut steps),
//!     ..
//! }
//! ```
#![tactic(auto)]

mod lost;
mod planning;
mod settled;
mod settling;
mod wanting;

pub use planning::{Renamed, plan_names};
pub use xfs_rebuild::{BoxedNames, RebuildFault, Rebuilt, plan_rebuild};
