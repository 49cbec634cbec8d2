//! The repair of a volume: a check of all that it says, and what is written anew.
//!
//! What `xfs_repair` does, over any disk: it elects, gathers, judges, plans the backup superblocks or the whole volume anew, and
//! writes what differs. Each outcome says what the disk then holds.
//!
//! `xfs_tools` calls it so:
//!
//! ```text
//! let answer = Answer::of_outcome(repair(rt, alloc, disk, &words.options(), stamp, gate));
//! ```
#![tactic(auto)]

mod finding;
mod laws;
mod outcome;
mod rebuilding;
mod refusals;
mod repairing;

pub use laws::{outcomes_by_rows, repairs_leave_it};
pub use outcome::{Outcome, RepairOptions, Summary};
pub use repairing::repair;
