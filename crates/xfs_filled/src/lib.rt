//! A new volume with files: their directories and links, inodes chunk by chunk, the trees of the groups, and a blank log.
//!
//! The plan of all blocks of a new volume, from its geometry and superblock, the files that a protofile says, and the bytes of
//! its regular files; nothing is read or written. The empty volume is the one of the root alone.
//!
//! A caller would write:
//!
//! ```text
//! let proto = read_proto(alloc, &text)?;
//! contents.push(Content::make(alloc, bytes)?)?; // of each file its bytes, in the order of the files; those of two may be shared
//! let plan = plan_filled(rt, alloc, &g, &sector, stamp, proto.nodes.as_slice(), &contents)?;
//! ```
#![tactic(auto)]

mod bytes;
mod chunks;
mod content;
mod contents;
mod directories;
mod entries;
mod forks;
mod laws;
mod numbers;
mod objects;
mod planning;
mod site;
mod slots;
mod spans;
mod wanting;

pub use content::Content;
pub use laws::protofiles_are_files;
pub use planning::plan_filled;
