//! What a whole image says, and when it is consistent. Nothing here computes: the definitions stand in `specs/`, and the
//! functions carry laws about them.
//!
//! The words in which the crates that read, repair and make a volume state what they do: `view`, what the image says;
//! `finding`, the first thing that is wrong; `IsConsistent`; `candidates`, where inodes may stand; `Protected` and
//! `Keeps`, which files a repair has to leave as they are. They range over lists of blocks, and over no disk.
//!
//! `xfs_mend` says by them what is due to an image:
//!
//! ```text
//! due_volume o g image = unwrap_or (turned_away o (volume_of g) image) (due_found o image (finding broken_law g image))
//! ```
#![tactic(auto)]

mod findings;
mod laws;

pub use findings::Finding;
pub use laws::{
    clusters_are_named, consistent_where_nothing_is_found, keeping_goes_on, places_are_ordered,
    view_is_of_what_reads, worked_examples,
};
