//! Entries of directories: short forms, which stand in the inode, and data blocks. They are read and
//! written here; the indexes of directories, seals and places of blocks are the concern of others.
//!
//! Reads what stands in a directory's inode or in one of its data blocks as a list of entries, or says that it is
//! unsound, and puts entries there, as many as fit.
//!
//! `xfs_dirs` gathers entries so, where `dir` is the directory's inode number, and `whole` says that it has no other block:
//!
//! ```text
//! let data = read_data(alloc, dir, block, whole)?; // entries, their places, unused spans
//! ```
#![tactic(auto)]

mod best;
mod data;
mod data_writing;
pub mod layouts;
mod records;
mod short;
mod short_writing;
mod sizes;

pub use best::bestfree;
pub use data::{DataBlock, read_data};
pub use data_writing::put_data;
pub use records::{DirDataFault, EntryRec, FreeSpan};
pub use short::{ShortDir, read_short_entries};
pub use short_writing::put_short;
pub use sizes::{data_size, short_size};
