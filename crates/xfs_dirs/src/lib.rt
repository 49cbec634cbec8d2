//! Directories, read from a disk: their entries, the parent that they state, and whether they are whole.
//!
//! For whoever reads a volume file by file: hands in a directory's slot and its file, and gets what the directory says,
//! also where it is damaged.
//!
//! `xfs_scan` reads each directory so:
//!
//! ```text
//! match read_directory(alloc, g, disk, slot, file, steps) {
//!     Ok(found) => ..,                    // its entries, the parent, whether it is whole
//!     Err(DirectoryFault::ReadFault) => ..,
//!     Err(DirectoryFault::NoMemory) => ..,
//! }
//! ```
#![tactic(auto)]

mod blocks;
mod directory;
mod entries;
mod found;
mod gathered;
mod seals;
mod short;
mod whole_forms;

pub use directory::read_directory;
pub use found::{DirFound, DirectoryFault};
