//! Protofiles: texts that say which files a new volume has, as `mkfs.xfs -p` takes them.
//!
//! A protofile is read in one pass, token by token, with the directories that are still open kept as a list; how deep
//! they stand is bounded by memory alone. What comes of it is one node for each file, depth first, the root first; or
//! the line of the first token that can't stand where it does, and why.
//!
//! `xfs_mkfs` reads one so:
//!
//! ```text
//! match read_proto(alloc, &text) {
//!     Ok(proto) => plan(&proto.nodes, ..),
//!     Err(ProtoFault::Bad { line, reason }) => ..,
//!     Err(ProtoFault::NoMemory) => ..,
//! }
//! ```
#![tactic(auto)]

mod entry_names;
mod modes;
mod numbers;
mod protofile;
mod reading;
mod scanning;

pub use modes::{FileType, Mode};
pub use protofile::{Proto, ProtoFault, ProtoKind, ProtoNode};
pub use reading::Open;
pub use scanning::read_proto;
