//! Which of two claimants keeps a block: the claims of clusters and files, by their rank.
//!
//! In a damaged volume two files may claim one block. Whoever salvages it hands in all claims and gets those that can be
//! kept together, by a rank that trusts what the trees name above what merely looks like inodes.
//!
//! A caller would write:
//!
//! ```text
//! let kept = keep(rt, alloc, &claims, &mut steps)?; // kept.clusters, kept.files: ascending numbers
//! ```
#![tactic(auto)]

mod arriving;
mod claimants;
mod holding;
mod ranks;
mod salvage;
mod taking;

pub use claimants::{Claims, FileClaim, KeptClaims};
pub use salvage::keep;
