//! What a slot names.

use xfs_kinds::Bmbt;
use xfs_tree::Frontier;

/// What has to be read before it can be said what a slot reads as.
#[derive(Drop)]
pub struct Needs {
    /// The level under the root of the data fork, where that is a tree whose root keeps the rules.
    pub top: Option<Frontier<Bmbt>>,
    /// The block of a leaf of attributes.
    pub attr_leaf: Option<u64>,
    /// The block of a symbolic link's target.
    pub link: Option<u64>,
}
