//! The laws of space: no block has two owners, and the trees of a group's space say who owns what.
//!
//! Judges the first three laws of a volume: that no block has two owners, and that the trees of free space and of owners
//! of each group say just that. It sorts all runs that are owned, on as many threads as there are processors, and sweeps
//! over them once.
//!
//! `xfs_laws` asks for them first:
//!
//! ```text
//! if let Some(law) = check_space(rt, alloc, &catalog.geometry, groups, files)? { return Ok(Some(law)); }
//! ```
#![tactic(auto)]

mod checking;
mod differing;
mod free_space;
mod holding;
mod owned_files;
mod owned_groups;
mod owners;
mod recorded;
mod sharing;
mod sorting;
mod splitting;

pub use checking::check_space;
pub use owned_files::word_of;
pub use owners::owned_runs;
