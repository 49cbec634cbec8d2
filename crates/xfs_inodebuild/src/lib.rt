//! Slots of inodes, written: free, fresh, or with a new data fork, other links or no attributes.
//!
//! From what an inode is to be to the 512 bytes of its slot, sealed, which `read_slot` of `xfs_inode` reads back. Who
//! renders a volume hands in the slot as it stands, or an empty one, and what is wanted of it; all bytes that are not
//! named stay. Nothing takes memory and nothing is written to a disk.
//!
//! `xfs_render` writes a slot so:
//!
//! ```text
//! fresh_slot(g, &core, &fork, slot); // of 512 bytes, without attributes
//! set_links(g, ino, nlink, slot); // the slot is sealed before and after
//! ```
#![tactic(auto)]

mod blank;
mod changes;
mod cores;
mod forks;
mod seals;
mod zeroing;

pub use blank::{free_slot, fresh_slot};
pub use changes::{drop_attrs, set_links};
pub use forks::{ForkWanted, set_fork};
