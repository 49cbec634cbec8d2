//! Directories, built: entries in short, single-block, leaf or node form, whichever is the first that fits.
//! Places and seals of the blocks are the concern of others.
//!
//! From the entries of a directory to its blocks: who repairs names, or makes a volume with files, hands in the entries
//! that are wanted and gets the short form or a bank of blocks, which `xfs_dirindex` would find whole.
//!
//! A caller would write:
//!
//! ```text
//! let image = build(alloc, &entries, dir, parent, fork)?;
//! if image.blocks.len() == 0 { /* image.short goes into the inode */ }
//! ```
#![tactic(auto)]

mod filling;
mod forms;
mod free_blocks;
mod image;
mod index_blocks;
mod leaf;
mod single;
mod tree;
mod writing;

pub use forms::{DirectoryForm, form_of};
pub use image::{DirImage, build};
