//! The writing phase: planned blocks go to a disk in two parts, each behind a sync.
//!
//! For every tool that writes more than one block. The blocks stand in a list, the order in rows. What must be on the disk
//! before the rest may be touched is the first part; the last part is written once a sync has kept the first. The contract
//! says what the disk then holds, how many blocks were written, and what a stop of the machine may leave at each moment.
//!
//! A caller:
//!
//! ```text
//! match write_parts(disk, &bank, &rows[1..], &rows[..1]) {
//!     Ok(()) => ..,
//!     Err(written) => ..,
//! }
//! ```
#![tactic(auto)]

mod rows;
mod writing;

pub use rows::Row;
pub use writing::write_parts;
