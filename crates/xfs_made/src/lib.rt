//! What was made reads back and is lawful: the blocks of an image, what it says, and that it is a consistent volume. Nothing here
//! computes: the definitions stand in `specs/`, and the functions carry laws about them.
//!
//! Four steps. What is placed keeps the laws of space, chunks, counters and free lists (`placed_space_is_lawful`,
//! `placed_counts_are_lawful`). An image that has what was rendered says just that: its groups read as they were placed, its primary
//! superblock is elected and all backups agree (`rendered_groups_read`, `rendered_super_is_elected`). An image with the plan of an
//! empty volume is that volume, and consistent (`made_volumes_are_consistent`). And no block is planned twice: new blocks are those
//! that nothing had, places whose bytes are at hand are first blocks of groups and blocks of the runs that are kept beside, and the
//! log has its own (`plans_have_blocks_of_their_own`).
//!
//! All but the third ask nothing of `mkfs.xfs`, and serve a repair that places and renders.
//!
//! For a repair, laws that hold the definitions of `xfs_salvage` and `xfs_request` in place: that a volume can be written anew from what
//! is kept can be had of every image (`candidates_can_be_kept`), its blocks can be placed beside (`kept_claims_are_apart`), and no
//! protected file is lost (`protected_files_stay`); new blocks can be placed beside what is taken (`requests_can_be_placed`), and what is
//! then placed can be written (`requests_can_be_rendered`); its chunks are just the kept clusters (`chunks_are_those_kept`) and say which
//! inodes are in use (`chunks_say_who_is_used`). Of no image a request is refused for the order of what was gathered
//! (`images_stand_in_order`).
#![tactic(auto)]

mod apart;
mod ascending;
mod due;
mod files;
mod gathered;
mod images;
mod kept_chunks;
mod placing;
mod plans;
mod ranks;
mod rendered;
mod rendering;
mod staying;
mod volumes;

pub use apart::kept_claims_are_apart;
pub use ascending::what_is_kept_ascends;
pub use due::{placed_counts_are_lawful, placed_space_is_lawful};
pub use files::{
    first_chunk_is_kept, first_files_read, first_lsns_are_zero, first_names_are_lawful,
};
pub use gathered::candidates_can_be_kept;
pub use images::images_stand_in_order;
pub use kept_chunks::{chunks_are_those_kept, chunks_say_who_is_used};
pub use placing::requests_can_be_placed;
pub use plans::plans_have_blocks_of_their_own;
pub use ranks::claims_are_kept_by_rank;
pub use rendered::{
    rendered_groups_read, rendered_lsns_are_zero, rendered_slots_stand, rendered_super_is_elected,
};
pub use rendering::requests_can_be_rendered;
pub use staying::{protected_files_stay, root_clusters_are_kept};
pub use volumes::{made_plans_plan_each_block_once, made_volumes_are_consistent};
