//! What holds blocks, runs of blocks and nodes, over memory that is taken at once or grows with what is held.
//!
//! A `RunSet` is a set of blocks as runs, for whoever asks again and again whether a block was met before: it takes as much memory as it
//! has runs, however long these are. `Steps` counts what such calls and reads cost, in proofs alone. `xfs_claims` takes the runs of a
//! file so:
//!
//! ```text
//! if set.meets(run.start, run.count, steps) { return Ok(false); }
//! set.add(run.start, run.count, steps)?;
//! ```
//!
//! A `Weave` is doubly linked lists of nodes, by index, over one allocation, for walks that move things between lists many times and must
//! not take memory on the way: all nodes and lists are made at once, and each call is a few changes of links. `xfs_links` lets
//! directories wait for a way from the root so:
//!
//! ```text
//! let mut weave = Weave::make(alloc, directories, LISTS)?;
//! weave.push_back(PENDING, node);
//! weave.move_to(REACHED, node);
//! ```
//!
//! A `BlockBank` is many blocks in one allocation, filled from a disk in one call, viewed block by block, worked on in disjoint parts. What
//! is planned to be written and the blocks of a directory are banks:
//!
//! ```text
//! let mut bank = BlockBank::make(alloc, places.len())?;
//! match bank.fill(disk, places) { .. }
//! let first = bank.view(0);
//! ```
//!
//! A `BlockList` is blocks in a list that share their bytes with others: what is planned to be written holds the bytes of each file once.
//! A block is a place in bytes that several hold, and none is copied when it is put into another list:
//!
//! ```text
//! let bytes = SharedBytes::make(alloc, bytes)?;
//! list.push_blocks(&bytes)?;
//! list.push(&block)?;
//! ```
#![tactic(auto)]

mod bank;
mod block_list;
mod counting;
mod links;
mod order;
mod parts;
mod piece;
mod run_set;
mod shared_bytes;
mod weave;

pub use bank::BlockBank;
pub use block_list::BlockList;
pub use counting::Steps;
pub use run_set::RunSet;
pub use shared_bytes::SharedBytes;
pub use weave::Weave;
