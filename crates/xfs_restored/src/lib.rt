//! What a volume is that was rebuilt: consistent, with each protected file kept. Nothing here computes: the definitions stand in
//! `specs/`, and the functions carry laws about them.
//!
//! No block is planned twice in a rebuild (`rebuilds_plan_each_block_once`), none that a kept file claims (`rebuilds_use_the_pool`), and
//! so the image in which it was written holds the whole plan (`rebuilt_images_hold_the_plan`) beside what is kept (`kept_files_stay`).
//! Its groups, superblocks and log follow (`rebuilt_groups_read`, `rebuilt_supers_are_elected`, `rebuilt_logs_are_clean`), and its slots
//! are what was wanted of them (`rebuilt_slots_are_due`).
//!
//! What is then read are the kept files with what their slots state, the files that are made anew, and no others: by what was known of
//! the slots (`slots_are_known_by_facts`) and what they then read as (`changed_slots_read`), chunks are the kept clusters
//! (`rewritten_chunks_are_kept`) and files the due ones (`rewritten_files_read`), which own what the kept ones do
//! (`rebuilt_files_own_what_is_kept`); entries and directories are those that are kept (`rewritten_directories_read`), and no log
//! sequence number is above the head of its log (`rewritten_lsns_are_behind`).
//!
//! The last step of the proof that a rebuild may be trusted. Where no name changes, an image in which it was written has what is kept of
//! the first one (`rebuilt_images_have_what_is_kept`), it says just what was due (`restored_volumes_say_what_is_due`), which breaks no law
//! (`due_volumes_are_lawful`), so it is consistent (`restored_volumes_are_consistent`), has what it named
//! (`restored_volumes_have_what_they_named`), and each file that was protected is in it as it
//! was (`restored_volumes_keep_protected_files`).
//!
//! Where names change, no block of the plan stands twice, so the image holds it (`renamed_images_hold_the_plan`), and each slot is what was
//! wanted of it (`renamed_slots_are_due`). Directories that were built anew stand in their runs, in however many pieces, and read as they
//! are wanted (`rebuilt_directories_read`); their slots read as files with these runs as their extents (`rebuilt_slots_read`,
//! `fresh_directories_read`). A new cluster is lost+found and 31 free inodes (`new_clusters_read`). So heads, chunks, files, entries and
//! directories are those that are due (`renamed_heads_read`, `renamed_chunks_are_settled`, `renamed_files_read`,
//! `renamed_directories_read`), they break no law (`renamed_space_is_lawful`, `renamed_names_are_lawful`, `renamed_lsns_are_behind`),
//! and the whole is as above (`relinked_volumes_are_consistent`).
#![tactic(auto)]

mod directories;
mod due_directories;
mod due_names;
mod files;
mod heads;
mod images;
mod kept_directories;
mod kept_files;
mod kept_lsns;
mod kept_slots;
mod lsns;
mod names;
mod numbers;
mod once;
mod plans;
mod pool;
mod relinking;
mod rewritten_heads;
mod rewritten_images;
mod safety;
mod slots;
mod space;
mod volumes;

pub use directories::{
    built_forks_fit, directories_find_their_forks, directories_stand_in_their_runs,
    rebuilt_directories_read, rebuilt_runs_are_extents,
};
pub use due_directories::renamed_directories_read;
pub use due_names::renamed_names_are_lawful;
pub use files::renamed_files_read;
pub use heads::renamed_heads_read;
pub use images::rebuilt_images_have_what_is_kept;
pub use kept_directories::rewritten_directories_read;
pub use kept_files::{
    rebuilt_files_own_what_is_kept, rewritten_chunks_are_kept, rewritten_files_read,
};
pub use kept_lsns::rewritten_lsns_are_behind;
pub use kept_slots::{changed_slots_read, slots_are_known_by_facts};
pub use lsns::renamed_lsns_are_behind;
pub use names::restored_names_are_lawful;
pub use numbers::renamed_numbers_are_known;
pub use once::rebuilds_plan_each_block_once;
pub use plans::{
    links_leave_room, new_clusters_read, renamed_images_hold_the_plan, renamed_slots_are_due,
};
pub use pool::rebuilds_use_the_pool;
pub use relinking::relinked_volumes_are_consistent;
pub use rewritten_heads::{
    rebuilt_groups_read, rebuilt_logs_are_clean, rebuilt_supers_are_elected,
};
pub use rewritten_images::{kept_files_stay, rebuilt_images_hold_the_plan, rebuilt_slots_are_due};
pub use safety::restored_volumes_keep_protected_files;
pub use slots::{
    changes_join_slots, cluster_changes_are_wanted, forked_directories_read, forks_are_wanted,
    forks_read_back, fresh_directories_read, placed_runs_are_extents, rebuilt_slots_read,
    slots_have_built_files,
};
pub use space::{renamed_chunks_are_settled, renamed_space_is_lawful};
pub use volumes::{
    due_volumes_are_lawful, restored_volumes_are_consistent, restored_volumes_have_what_they_named,
    restored_volumes_say_what_is_due,
};
