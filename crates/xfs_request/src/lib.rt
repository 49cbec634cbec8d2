//! What is asked of a volume that is rebuilt round what is kept of it: the slots, the chunks and the log that it then needs.
//!
//! Whoever mends a volume hands in what is kept, with what is known of the slots of its clusters. The trees of the groups are
//! placed beside what is kept, and the slots that nothing kept stands on are freed or made anew. Nothing is read or written here.
//!
//! A caller would write:
//!
//! ```text
//! let Request { wanted, slots, .. } = ask(alloc, g, &kept, &seen, reserved, stamp)?;
//! let numbers = kept_lsns(alloc, g, &kept, &seen, &lsns)?;
//! let cycle = due_cycle(numbers.as_slice(), &log)?;
//! let placed = place(alloc, &wanted)?;
//! ```
#![tactic(auto)]

mod asking;
mod chunks;
mod fresh;
mod links;
mod log;
mod order;
mod seen;
mod slots;
mod taken;

pub use asking::{Request, ask};
pub use chunks::inodes_wanted;
pub use links::{Near, directories_of, links_due};
pub use log::{due_cycle, kept_lsns};
pub use seen::{SlotSeen, SlotState};
pub use taken::taken_runs;
