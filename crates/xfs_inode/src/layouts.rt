//! The on-disk layouts of an inode, as data.

pub mod inode;
pub mod link;
pub mod root;
