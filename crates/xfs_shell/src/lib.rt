//! xfs_db: a language of lines that look at the objects of a volume, and change their fields.
//!
//! A session, over any disk: the geometry is elected, the commands are those that are handed in or the lines of an input,
//! and what they print goes to an output, command by command. A command that is refused says why and the next one is run;
//! a fault ends the session, and what was written by then stays.
//!
//! `xfs_tools` runs `xfs_db` so:
//!
//! ```text
//! let outcome = shell(alloc, disk, input, out, &options);
//! ```
#![tactic(auto)]

mod debugging;
mod input;
mod line_parts;
mod outcomes;
mod running;
mod session;

pub use debugging::shell;
pub use outcomes::{ShellOptions, ShellOutcome};
