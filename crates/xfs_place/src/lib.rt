//! Where new blocks of a volume stand: chunks of inodes, runs of files, and the trees and free lists of its
//! allocation groups.
//!
//! Whoever writes a volume anew says what is kept, what is new and what is wanted, and gets a place for each, with the
//! records that the trees of all groups then have and the counters: the lowest places that serve, or the first thing for
//! which there is no room.
//!
//! `xfs_empty` places an empty volume so:
//!
//! ```text
//! let placed = place(alloc, wanted)?; // PlaceFault::NoRoom(Unplaced::Group(ag)) where that group is full
//! let plan = render(rt, alloc, wanted, &placed, bytes, WORKERS, &NoGate)?;
//! ```
#![tactic(auto)]

mod choice;
mod chunk_search;
mod claims;
mod counting;
mod faults;
mod greatest;
mod group_lists;
mod group_placing;
mod lowest;
mod object_placing;
mod open_blocks;
mod open_rows;
mod owned;
mod placed;
mod placing;
mod sparing;
mod uses;
mod volume_placing;
mod wanted;
mod windows;

pub use chunk_search::{ChunkAsk, chunks};
pub use faults::{PlaceFault, Unplaced};
pub use placed::{GroupPlaced, Placed};
pub use placing::place;
pub use sparing::spare;
pub use wanted::{GroupInodes, Object, ObjectKind, RunAsk, Wanted};
