//! The headers of an allocation group: of its free space (AGF), of its inodes (AGI), and the list of the
//! blocks that are kept ready for its trees (AGFL); and what the state of a log is. Nothing here takes memory.
//!
//! Each header is read as a plain record, or as none where its seal or a bound fails, and written from one; the tables of
//! their fields serve the debugger too.
//!
//! `xfs_groups` reads the first block of a group so, with `part` of `xfs_word`; a header that does not read takes no other with it,
//! but the list of a group is read only beside its free space:
//!
//! ```text
//! let agf = read_agf(g, ag, part(block, 512, 512));
//! let agfl = match agf {
//!     Some(agf) => read_agfl(g, ag, &agf, part(block, 1536, 512)),
//!     None => None,
//! };
//! ```
#![tactic(auto)]

mod arrays;
mod free_list;
mod free_space;
mod heads;
mod inodes;
pub mod layouts;
mod log_state;

pub use arrays::ArrayLayout;
pub use free_list::{Agfl, put_agfl, read_agfl};
pub use free_space::{Agf, put_agf, read_agf};
pub use heads::clear;
pub use inodes::{Agi, put_agi, read_agi};
pub use log_state::LogState;
