//! Indexes of directories, checked: the pairs of a name's hash and an entry's address, and the table of
//! the longest unused spans. Seals are the concern of others.
//!
//! Says whether a directory that has blocks is whole in the form in which it stands: whether its index has just the
//! hashes and places of its entries, and its table of free space just their gaps. The time goes with the number of
//! entries, not with its square.
//!
//! `xfs_dirs` asks so:
//!
//! ```text
//! let seen = DirSeen { dir, size, offsets, blocks };
//! match check_leaf(alloc, &seen) {
//!     Ok(()) => ..,                       // whole
//!     Err(IndexFault::Unsound) => ..,
//!     Err(IndexFault::NoMemory) => ..,
//! }
//! ```
#![tactic(auto)]

mod block;
mod data;
mod free_blocks;
mod index_tree;
pub mod layouts;
mod leaf;
mod lookup;
mod node;
mod pairs;
mod same;
mod seen;
mod values;

pub use block::check_block;
pub use data::{is_dots, is_parent_name};
pub use leaf::check_leaf;
pub use node::check_node;
pub use pairs::{PAIR_SIZE, Pair};
pub use seen::{DirSeen, IndexFault};
