//! Rounds of blocks: read into a bank, and judged in pieces by several workers.
//!
//! Whatever is known of a block from its bytes alone can be found out by any worker. So the blocks that are looked at are read in
//! rounds, in order, each into one bank; a round is cut into as many pieces of neighbouring blocks as there are workers or fewer, and
//! each piece writes only what it finds of its own blocks. What is found stands in the order of the blocks, however many workers
//! there are.
//!
//! Most slots say by themselves what they read as. Of those of a round that name other blocks (trees of extents, leaves of attributes,
//! targets of symbolic links) the trees are read together, level by level, then the leaves and the targets, each in a round of its own;
//! and then what each slot reads as is decided in pieces again.
//!
//! `xfs_scan` reads the slots of clusters so:
//!
//! ```text
//! let bank = load_round(alloc, disk, round, steps)?;
//! let mut judged = judge_round(rt, alloc, g, &bank, round, workers, gate)?; // of each block what its slots are by themselves
//! settle_round(rt, alloc, g, disk, &bank, &mut judged, workers, gate, steps)?; // each slot is `SlotFile::Decided` now
//! ```
#![tactic(auto)]

mod facts;
mod faults;
mod judging;
mod loading;
mod named;
mod naming;
mod pieces;
mod reading;
mod settling;
mod trees;

pub use facts::{SlotFact, SlotReading};
pub use faults::RoundFault;
pub use judging::{BoxedRead, SlotFile, SlotPart};
pub use loading::{load_round, reload_round};
pub use pieces::{BlockParts, judge_round};
pub use reading::settle_round;
