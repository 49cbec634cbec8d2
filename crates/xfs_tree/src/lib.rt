//! B+trees of any kind: what a kind is, how its blocks are laid out, and how a tree is read (chapter "Common B+trees").
//!
//! What all trees of a volume have in common. A kind says what its records and keys are, and with that its trees can be
//! read, level by level: as the records of their leaves, with the blocks that were read, or as the first block that
//! breaks a rule. Who reads a tree names its root and how many levels it has, or the blocks of its top level. What a block
//! is by itself (`read_step`) is there for `xfs_forest`, which reads many trees of a kind together.
//!
//! `xfs_inode` reads the tree of a fork, whose root stands in the slot, so:
//!
//! ```text
//! match read_below(alloc, &Bmbt { ino }, g, disk, top, steps) {
//!     Ok(tree) => ..,                        // tree.records, tree.blocks
//!     Err(TreeFault::Unread(unread)) => ..,  // the block, and the rule that it breaks
//!     ..
//! }
//! ```
#![tactic(auto)]

mod frontier;
pub mod headers;
mod items;
mod kind;
mod layout;
mod level;
mod met;
mod places;
mod reading;
mod rules;
mod seats;
mod stepping;
mod tree;
mod unread;

pub use frontier::Frontier;
pub use headers::long::LONG;
pub use headers::short::SHORT;
pub use kind::{Kind, tree_layout};
pub use layout::Layout;
pub use level::place_at;
pub use met::MetBlocks;
pub use places::can_hold;
pub use reading::{read_below, read_tree};
pub use rules::{high_of, low_of};
pub use seats::Seat;
pub use stepping::{Found, Spot, read_step, rule_behind};
pub use tree::{Tree, TreeFault};
pub use unread::Unread;
