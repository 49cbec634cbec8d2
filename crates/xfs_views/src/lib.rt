//! What an image says, in laws: its view is a catalog whose laws can be judged, what it means that a file is protected and kept, and
//! what reads the same where the blocks that a reading looks at hold the same bytes. Nothing here computes; the functions carry laws
//! about the definitions, most of which stand in `xfs_image`.
//!
//! Who has read an image and wants to judge its laws owes that what was read is a catalog (`views_are_catalogs`);
//! `findings_by_cases` tells what is found first of an image, for whoever shows that nothing is. In words it is said when a slot
//! reads as a file and a directory is whole.
//!
//! Who shows that a repair keeps protected files takes from here that they are kept of the claims on blocks
//! (`protected_files_are_kept`, and `guarded_files_are_kept` for claims of any origin) and what is owed for a file that is kept
//! (`kept_files_in_words`).
//!
//! Who shows that what was written leaves the rest of an image as it was takes its readings from the modules `staying_..`: trees and
//! slots by themselves, then files and directories, groups, and last the view of the whole (`views_stay`).
#![tactic(auto)]

mod claims;
mod consistent;
mod examples;
mod keeping;
mod staying_directories;
mod staying_files;
mod staying_groups;
mod staying_trees;
mod staying_views;
mod taking;
mod views;
mod words;

pub use claims::{guarded_files_are_kept, protected_files_are_kept, protected_files_by_lists};
pub use consistent::files_of_consistent_images_are_protected;
pub use examples::{guarded_examples, lost_examples};
pub use keeping::{keeping_is_an_order, kept_files_in_words};
pub use staying_directories::{all_directories_stay, directories_stay};
pub use staying_files::{
    all_files_stay, bytes_stay, files_claim_what_they_name, files_stay, unchanged_files_are_kept,
};
pub use staying_groups::groups_stay;
pub use staying_trees::trees_stay;
pub use staying_views::{log_stays, lsns_stay, views_stay};
pub use taking::{claims_take_protection, kinds_take_protection};
pub use views::{findings_by_cases, parts_are_lawful, trees_are_lawful, views_are_catalogs};
pub use words::{files_in_words, whole_directories_in_words};
