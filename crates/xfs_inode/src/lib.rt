//! Inodes: the slots of 512 bytes that hold them, and the files that they hold, read.
//!
//! A slot is judged by its bytes alone (`read_slot`), it names the blocks beside it that have to be read (`needs`), and
//! both together are a file (`decide_file`); `read_file` does the three over a disk. Slots are written in
//! `xfs_inodebuild`, by the same layouts, seal (`slot_seal`) and bound of the data fork (`fork_bytes`).
//!
//! `xfs_scan` reads each slot of a cluster so:
//!
//! ```text
//! match read_file(alloc, g, disk, ino, slot, steps) {
//!     Ok(FileRead::File(file)) => ..,          // its extents lie in the volume, and none twice
//!     Ok(FileRead::FileWithoutAttrs(file)) => ..,
//!     Ok(FileRead::Free) => ..,
//!     ..
//! }
//! ```
#![tactic(auto)]

mod alone;
mod attributes;
mod claims;
mod conditions;
mod cores;
mod counts;
mod deciding;
mod extents;
mod faults;
mod file_reading;
mod files;
mod forks;
mod held;
pub mod layouts;
mod named;
mod naming;
mod outcomes;
mod reading;
mod records;
mod roots;
mod seals;
mod support;

pub use alone::decide_alone;
pub use deciding::{decide_file, decide_read};
pub use faults::InodeFault;
pub use file_reading::{read_file, read_file_of};
pub use files::{BoxedFile, FileRead};
pub use forks::fork_bytes;
pub use named::Needs;
pub use naming::{needs, needs_of};
pub use reading::{SlotRead, read_slot};
pub use seals::slot_seal;
