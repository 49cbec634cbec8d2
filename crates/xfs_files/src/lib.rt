//! Disks, sources, sinks and libraries that are files and streams of the system.
//!
//! A `FileDisk` is a file and tells no blocks, so what contracts say of contents says nothing of it. What its calls do to the bytes of
//! the file, its own clauses say, of any `ByteFile` that tells them; the calls of the system that it is made of stand in `system.rt`,
//! each alone in a function.
//!
//! `xfs_system` opens an image so:
//!
//! ```text
//! let disk = FileDisk::open(alloc, file)?; // as many whole blocks as the file has
//! ```
#![tactic(auto)]

mod ahead;
mod file_disk;
mod file_library;
mod streams;
mod system;

pub use file_disk::FileDisk;
pub use file_library::FileLibrary;
pub use streams::{StreamSink, StreamSource};
pub use system::{ByteFile, Outlet};
