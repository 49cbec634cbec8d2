//! What a repair leaves is settled before it runs: no test that is made where the program runs turns anything away, and of one image
//! there is one outcome. Nothing here computes: the definitions stand in `specs/`, and the functions carry laws about them.
//!
//! What is gathered of an image passes the tests that are made when names change, so that no test hides a missing proof: names can be
//! decided of it (`gathered_names_can_be_decided`), and the number of lost+found is one that no file has
//! (`lost_found_stands_apart`); links fit their fields (`settled_links_fit`), what directories give up lies in the volume
//! (`gathered_extents_lie_inside`), and they find the runs that were placed for them (`placed_directories_find_their_runs`); what is
//! wanted of slots stands by inode (`settled_slots_stand_by_number`), and can be made of what stands there
//! (`settled_slots_can_be_made`).
//!
//! Of one image there is one rewritten image, object by object and as a whole (`rewrites_are_one`), and one outcome of a repair
//! (`outcomes_are_one`).
#![tactic(auto)]

mod changes;
mod deciding;
mod directories;
mod forks;
mod gathered_slots;
mod grounds;
mod heads;
mod images;
mod links;
mod logs;
mod lost;
mod names;
mod objects;
mod placing;
mod repairs;
mod replaced;
mod slots;
mod trees;
mod volumes;

pub use changes::settled_slots_can_be_made;
pub use deciding::gathered_names_can_be_decided;
pub use directories::built_directories_are_one;
pub use forks::placed_directories_find_their_runs;
pub use gathered_slots::settled_slots_stand_by_number;
pub use grounds::{bytes_at_hand_are_one, grounds_are_one};
pub use heads::{header_blocks_are_one, superblocks_are_one};
pub use images::{rebuilt_images_are_one, relinked_images_are_one, rewrites_are_one};
pub use links::settled_links_fit;
pub use logs::blank_logs_are_one;
pub use lost::lost_found_stands_apart;
pub use names::names_are_one;
pub use objects::object_blocks_are_one;
pub use placing::{placed_groups_are_one, placings_are_one};
pub use repairs::{outcomes_are_one, repairs_are_one};
pub use replaced::gathered_extents_lie_inside;
pub use slots::{changed_slots_are_one, made_slots_are_one, wanted_slots_are_one};
pub use trees::{group_trees_are_one, tree_blocks_are_one};
pub use volumes::volumes_share_places;
