//! Many B+trees of a kind, read together: level by level, in rounds of blocks that several workers judge (chapter "Common B+trees").
//!
//! The blocks of a level of all trees are taken, tree by tree, into rounds. A round is read in order, each block once; what a block is by
//! itself is judged in pieces of neighbouring blocks, one for each worker; and what was found is then joined from the left, tree by tree,
//! where the order behind the block in front is judged as well. What is read does not depend on the number of workers.
//!
//! `xfs_groups` reads the trees of all groups so, one call for each kind:
//!
//! ```text
//! let plants = ..;                       // of each group the root, and the level that it has
//! let trees = read_forest(rt, alloc, g, disk, plants, workers, gate, steps)?;
//! match &trees[i] {
//!     Ok(tree) => ..,                    // tree.records, tree.blocks
//!     Err(unread) => ..,                 // the block, and the rule that it breaks
//! }
//! ```
#![tactic(auto)]

mod cells;
mod faults;
mod growing;
mod joining;
mod levels;
mod loading;
mod pieces;
mod planting;
mod plants;
mod reading;
mod rounds;
mod sweeping;
mod taking;

pub use faults::ForestFault;
pub use pieces::piece_size;
pub use plants::Plant;
pub use reading::read_forest;
