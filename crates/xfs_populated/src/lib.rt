//! What a new volume with files is due to say. This module runs nothing: it holds definitions, and laws about them.
#![tactic(auto)]

mod bytes;
mod files;
mod heads;
mod names;
mod space;
mod volumes;

pub use bytes::filled_files_have_their_bytes;
pub use files::{chunks_have_inodes, filled_files_read, filled_slots_are_made, filled_slots_read};
pub use heads::filled_heads_read;
pub use names::{
    filled_directories_read, filled_names_are_lawful, filled_numbers_stand,
    filled_short_forms_stand,
};
pub use space::{filled_lsns_are_zero, filled_space_is_lawful};
pub use volumes::filled_volumes_are_consistent;
