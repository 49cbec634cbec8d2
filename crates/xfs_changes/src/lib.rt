//! What names change in a volume: the directories that are built anew as objects and as forks, the blocks that they give up, the
//! room of their forks, and the slots of inodes.
//!
//! From names that are settled to what is placed and written of them. Where names have to change, `xfs_rename` asks here whether
//! names can be decided of what is kept, places the objects of the directories that are built anew, and has the slots changed by
//! where these then stand and by where lost+found does (`Lost`). Nothing is read or written.
//!
//! A caller would write:
//!
//! ```text
//! let nodes = nodes_of_files(alloc, files)?; // can_connect says whether names can be decided of them
//! let rooms = fork_rooms(alloc, &rebuilt, files)?;
//! let objects = objects_of(alloc, &rooms, &built)?; // to be placed
//! let forks = forks_of(alloc, &g, files, &built, &cuts, &runs)?; // where they stand
//! let ways = Ways { g: &g, stamp, lost: &lost, files, forks: &forks };
//! let changes = changes_of(alloc, &ways, &links)?;
//! let slots = with_changes(alloc, &changes, &slots)?; // what is then wanted of slots
//! ```
#![tactic(auto)]

mod changes;
mod forks;
mod lost_found;
mod nodes;
mod objects;
mod replaced;
mod rooms;
mod slots;

pub use changes::{SlotChange, Ways, changes_of};
pub use forks::{DirectoryFork, forks_of};
pub use lost_found::Lost;
pub use nodes::{can_connect, firsts_of_clusters, nodes_of_files};
pub use objects::{blocks_of_built, objects_of};
pub use replaced::push_replaced;
pub use rooms::fork_rooms;
pub use slots::with_changes;
