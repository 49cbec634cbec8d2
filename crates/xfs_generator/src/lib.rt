//! Files that are generated: a hundred to a directory, each with bytes that follow from its number.
//!
//! They stand as the files of a protofile do, with the bytes of each beside them, so that a volume is planned with them as it
//! is with those. `xfs_mkfs` calls it so:
//!
//! ```text
//! let generated = generate(alloc, count)?;
//! generated_files_are_files(count);
//! let plan = plan_filled(rt, alloc, &g, &sector, stamp, generated.nodes.as_slice(), generated.contents.as_slice())?;
//! ```
#![tactic(auto)]

mod generating;
mod laws;
mod spots;

pub use generating::{Generated, directory_count, generate};
pub use laws::{generated_files_are_files, generated_files_stand};
