//! Names: which entries of the directories stay, where each directory hangs, and which files have lost
//! their names.
//!
//! From the files that are kept and the entries that were read to names that hang together: who repairs names writes the
//! entries that stay, and puts the orphans into lost+found under the names that are given here.
//!
//! A caller would write:
//!
//! ```text
//! let names = connect(alloc, &files, &entries, root)?;
//! // names.entries stay; names.orphans have lost their names; names.lost is the lost+found that is there
//! ```
//!
//! The modules `together` and `lawful` run nothing: they carry the laws that what is decided here keeps the laws of names, one step of
//! the proof that a volume whose names were repaired is consistent.
#![tactic(auto)]

mod candidates;
mod connecting;
mod lawful;
mod laws;
mod lookup;
mod met;
mod orphans;
mod records;
mod remaining;
mod together;
mod walk;

pub use candidates::is_reserved_inode;
pub use connecting::connect;
pub use lawful::{cycle_is_settled, settled_names_are_lawful};
pub use laws::names_hold;
pub use records::{DIRECTORY, DecidedNames, NodeRec};
pub use together::{
    all_are_named, all_are_reached, all_name_files, directories_hang_together,
    names_differ_together, names_stay_different, orphans_have_free_names,
};
