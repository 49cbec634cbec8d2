//! The log of a volume, and the log sequence numbers that stand in its blocks, read from a disk.
//!
//! For whoever has to know whether a log is clean before anything is believed or written, and for the law on log sequence
//! numbers. It reads a few blocks of the log at once and holds what it saw of each sector, not the
//! log; zeros behind the last sector of another kind are only counted.
//!
//! `xfs_mend` asks so where a volume is refused:
//!
//! ```text
//! match read_log(alloc, g, disk, steps) {
//!     Ok(LogState::Dirty) => ..,
//!     Ok(LogState::Clean { head }) => ..,
//!     Err(fault) => ..,
//! }
//! ```
#![tactic(auto)]

mod extents;
mod faults;
mod files;
mod groups;
mod known;
mod laws;
mod log;
mod lsns;
mod places;
mod seen;
mod sorting;

pub use faults::JournalFault;
pub use laws::extents_have_sums;
pub use log::read_log;
pub use lsns::read_lsns;
