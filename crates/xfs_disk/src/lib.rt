//! The outside of the tools: disks, sources, sinks and libraries, with their contents and faults.
//!
//! A crate that touches an image, a stream or another file is generic over a trait of this one, so that its contract can
//! say what was read, what is held afterwards, and that a fault was answered only where one was counted. Those in memory stand in
//! `xfs_memory`, those of the system in `xfs_files`.
//!
//! A session of the debugger reads so:
//!
//! ```text
//! let mut block = [0; BLOCK_SIZE];
//! match disk.read(place, &mut block) {
//!     Ok(()) => {}
//!     Err(Failed) => return Err(Stop::ReadFault), // and disk.faults() has risen
//! }
//! ```
#![tactic(auto)]

mod counting;
mod disk;
mod failed;
mod gate;
mod library;
mod sharing;
mod stamp;
mod stream;
mod word;

pub use counting::{count_all_done, count_done, count_failure, counted};
pub use disk::{BLOCK_SIZE, Disk};
pub use failed::{Failed, NoMemory};
pub use gate::{Gate, NoGate};
pub use library::{Library, LibraryFault};
pub use sharing::share_of;
pub use stamp::Stamp;
pub use stream::{Sink, Source};
pub use word::Word;
