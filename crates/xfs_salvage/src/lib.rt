//! What is kept of a damaged volume: of the clusters and files that were found in it, those that can be kept together.
//!
//! Whoever mends a volume hands in what its candidate clusters gave. All that claims blocks is ranked, and what meets something of
//! a higher rank is left out; so is a root that is no directory, and a system inode that is no empty regular file. What is
//! then kept is handed back as lists, with the inodes that are to be made anew.
//!
//! A caller would write:
//!
//! ```text
//! let found = FoundRecords { clusters, files, entries, dirs }; // as they were gathered
//! let kept = salvage(rt, alloc, g, found, &mut steps)?; // kept.clusters, kept.files, kept.fresh, ..
//! ```
#![tactic(auto)]

mod claiming;
mod extents;
mod found;
mod keeping;
mod order;
mod runs;

pub use claiming::claims_in;
pub use found::{FoundRecords, Salvaged};
pub use keeping::salvage;
pub use order::{directories_of, is_among};
pub use runs::{cluster_of, push_file_runs};
