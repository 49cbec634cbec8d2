//! Backup superblocks: which of them does not agree with the primary, and what is to be written so that all do.
//!
//! Each group but the first begins with a copy of the superblock. Who checks a volume looks for the first that does not
//! agree; who repairs it gets the blocks of all those, read and with their first sector replaced, and a row for each that
//! says where it stands. Nothing is written here: `xfs_writing` takes the rows.
//!
//! `xfs_mend` calls it so:
//!
//! ```text
//! let first = find_disagreeing(disk, geometry, primary)?; // the group, if any
//! let plan = plan_backups(alloc, disk, geometry, primary)?;
//! write_parts(disk, &plan.bank, &[], plan.rows.as_slice())
//! ```
#![tactic(auto)]

mod backups;
mod faults;

pub use backups::{BackupPlan, find_disagreeing, plan_backups};
pub use faults::MendFault;
