//! Disks, sources, sinks and libraries in memory, for tests.
//!
//! Each tells what it holds, so that what contracts say of contents is said of it, and fails at the call that a test names.
//!
//! A test makes a disk so:
//!
//! ```text
//! let mut disk = MemoryDisk::make(alloc, 2048)?; // of zeros
//! disk.fail(7)?; // the seventh call
//! ```
#![tactic(auto)]

mod holding_gate;
mod memory_disk;
mod memory_library;
mod memory_sink;
mod memory_source;
mod noted_disk;
mod schedule;

pub use holding_gate::HoldingGate;
pub use memory_disk::MemoryDisk;
pub use memory_library::MemoryLibrary;
pub use memory_sink::MemorySink;
pub use memory_source::MemorySource;
pub use noted_disk::NotedDisk;
