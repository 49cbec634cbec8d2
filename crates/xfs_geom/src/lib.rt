//! The geometry of a volume, as its superblocks state it.
//!
//! Where a volume begins: which superblock is believed, and the numbers that all places are reckoned by. A `Geometry`
//! keeps its shape by its type, so that whoever is given one need not ask whether a group or a block can be there. The
//! plain records that several crates share (spans, runs, records of trees) stand here.
//!
//! `xfs_mend` begins so:
//!
//! ```text
//! let elected = match elect(alloc, disk) {
//!     Ok(elected) => elected,
//!     Err(ElectFault::NoGeometry) => return Outcome::NoGeometry,
//!     ..
//! };
//! let block = elected.geometry.block_of_address(address); // None outside the volume
//! ```
#![tactic(auto)]

mod backups;
mod conversions;
mod election;
mod features;
mod fixed;
mod geometry;
mod polls;
mod reading;
mod records;
mod stated;
mod sums;
pub mod superblock;
mod writing;

pub use backups::agrees;
pub use election::{ElectFault, Elected, elect};
pub use geometry::Geometry;
pub use reading::{SuperFault, read_super};
pub use records::{Counts, InoRec, RmapRec, Run, Span};
pub use sums::{free_blocks, free_slots, longest, slots};
pub use writing::write_super;
