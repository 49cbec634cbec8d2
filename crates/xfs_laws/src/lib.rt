//! The laws of a volume: when all that its trees, inodes and directories say hangs together.
//!
//! The verdict on a catalog, as one call: nothing, or the first law that is broken, with what is held there and what is
//! due. Its condition, that the parts of the catalog are sound by themselves, can be tested by `is_catalog`,
//! which is true exactly where they are.
//!
//! `xfs_mend` judges a volume so:
//!
//! ```text
//! if !is_catalog(catalog) { .. }
//! match lawful(rt, alloc, workers, catalog) {
//!     Ok(()) => ..,
//!     Err(LawFault::Broken(law)) => ..,
//!     Err(LawFault::NoMemory) => ..,
//! }
//! ```
#![tactic(auto)]

mod broken;
mod chunks;
mod counters;
mod entries;
mod files;
mod log;
mod named;
mod parts;
mod verdict;

pub use named::are_named;
pub use verdict::{is_catalog, lawful};
