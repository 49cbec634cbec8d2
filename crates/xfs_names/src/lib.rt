//! The names that are wanted of a damaged volume: the final entries of each directory, parents, counts of links, where
//! lost+found stands, and the directories that are built anew.
//!
//! From what `xfs_links` decides on the names of the kept files to what is written: who repairs a volume asks where lost+found
//! stands, makes a new cluster for it where need be, and gets all names as lists.
//!
//! A caller would write:
//!
//! ```text
//! let names = connect(alloc, &nodes, &listed, root)?;
//! let place = lost_place(&nodes, root, &clusters, &names); // an inode that becomes lost+found: new
//! let wanted = want_names(alloc, &nodes, &listed, &dirs, root, new, names)?;
//! // wanted.entries, wanted.parents, wanted.links
//! let built = build_all(alloc, &wanted, &rooms)?; // of each of wanted.rebuilt its short form or its blocks
//! ```
#![tactic(auto)]

mod building;
mod comparing;
mod joining;
mod laws;
mod linking;
mod lookup;
mod parenting;
mod place;
mod records;
mod wanting;

pub use building::{BuiltDirectory, ForkRoom, build_all};
pub use laws::wanted_names_are_lawful;
pub use lookup::{is_directory_near, is_kept};
pub use place::{LostPlace, lost_place};
pub use records::WantedNames;
pub use wanting::want_names;
