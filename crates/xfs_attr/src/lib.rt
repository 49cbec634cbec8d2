//! Extended attributes: the short form, which stands in an inode, and the leaf, which is a block of its own.
//!
//! Reads attributes as a list of flags, name and value, or says that they are unsound or of a form that is not supported.
//! It neither looks at seals nor knows where the bytes stand: that is for whoever reads the inode.
//!
//! `xfs_inode` reads a leaf so:
//!
//! ```text
//! match read_leaf(alloc, block) {
//!     Ok(attrs) => ..,
//!     Err(AttrFault::Unsupported { what }) => ..,
//!     Err(AttrFault::Unsound) => ..,
//!     Err(AttrFault::NoMemory) => ..,
//! }
//! ```
#![tactic(auto)]

mod attributes;
mod entries;
mod layouts;
mod leaf;
mod short_form;
mod soundness;

pub use attributes::{Attr, AttrFault, Attrs};
pub use leaf::read_leaf;
pub use short_form::read_short_attributes;
