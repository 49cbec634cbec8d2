//! The commands of xfs_db: each over a place, the stack of places and the bytes of an object.
//!
//! What each command does, apart from reading and writing its block: where it goes, what it prints, which bytes it
//! changes, or for which reason it is refused.
//!
//! `xfs_shell` reads a block and prints of it so:
//!
//! ```text
//! let object = place.kind.object(place.sector, &block);
//! print(alloc, text, cursor, place.kind, object, arguments)?
//! ```
#![tactic(auto)]

mod commands;
mod cursor;
mod looks;
mod moves;
mod writes;

pub use commands::{Verb, run_alone, word_at};
pub use cursor::{Cursor, Verdict, refuse, refuse_word};
pub use looks::{go_along, print};
pub use writes::set;
