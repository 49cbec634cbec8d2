//! The evidence of a volume, gathered from a disk: the clusters of inodes that it may have, their files and entries, and what
//! the whole image says.
//!
//! All that a check and a repair go by, gathered in one call: the catalog that the laws judge, or the first part that
//! does not read, and beside it all that can still be read of a damaged volume. A volume past its limits, or with a file
//! that is not supported, is refused here.
//!
//! `xfs_mend` gathers so:
//!
//! ```text
//! match gather(rt, alloc, g, disk, workers, gate, &mut steps) {
//!     Ok(evidence) => ..,
//!     Err(ScanFault::TooLarge { what, count }) => ..,
//!     Err(ScanFault::UnsupportedFile { ino, what }) => ..,
//!     ..
//! }
//! ```
#![tactic(auto)]

mod evidence;
mod faults;
mod gather_evidence;
mod limits;
mod scan;
mod view;

pub use evidence::{BoxedSeen, Evidence, Lists, Seen};
pub use faults::ScanFault;
pub use gather_evidence::gather;
