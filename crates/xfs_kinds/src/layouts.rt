//! The layouts of records and keys, as data: one table for each.

pub mod extent_key;
pub mod inode_chunk;
pub mod owner;
pub mod owner_key;
pub mod span;
