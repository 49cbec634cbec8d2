//! The laws of names: directories are whole and name files in use, they hang together as one tree below the root,
//! and each file has as many links as names.
//!
//! Judges three laws of a volume over plain records of files and entries; where one is broken it tells the least inode at
//! which that is so. Nothing is read.
//!
//! `xfs_laws` asks for them behind those of space and of counters:
//!
//! ```text
//! if let Some(law) = check_names(alloc, root, files, entries, dirs)? { return Ok(Some(law)); }
//! ```
#![tactic(auto)]

mod checks;
mod counts;
mod directories;
mod kinds;
mod linking;
mod lookups;
mod naming;
mod numbering;
mod places;
mod reached;
mod runs;
mod texts;
mod walks;

pub use checks::check_names;
pub use linking::links_of;
pub use lookups::entry_type;
pub use runs::{Link, Numbered, records_by_number, records_near};
