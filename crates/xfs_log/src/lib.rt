//! The log: whether it is clean, and what a blank one holds (chapter "Journaling Log"). Nothing here takes memory.
//!
//! A log is a list of sectors of 512 bytes, which goes around: behind the last stands the first. Its state is found from what is seen of
//! its sectors, one by one. `xfs_journal` reads it so:
//!
//! ```text
//! seen.push(see_sector(sector))?;
//! match log_state(&seen, sectors) { LogState::Clean(head) => .., LogState::Dirty => .. }
//! ```
#![tactic(auto)]

mod blank;
mod layout;
mod sectors;
mod state;

pub use blank::blank_log_sector;
pub use sectors::{SectorSeen, ZERO_SECTOR, see_sector};
pub use state::log_state;
pub use xfs_heads::LogState;
