//! The plain types of a volume's content: inodes, files, directories, groups, and the catalog of them all.
//!
//! What the layers hand to one another once bytes were read: a file with its core, extents, attributes and target; a
//! directory with the parent that it states; a group with its headers and the records of its trees; and the `Catalog` of
//! all, which the laws judge. There is no code but what keeps lists, and what judges a name or the type of a file; `Records`
//! is a `Vec` that contracts see as its list, `Extents` a list of extents that is mostly one, and `Rest` what most files have nothing of.
//!
//! `xfs_scan` makes a catalog and `xfs_mend` judges it:
//!
//! ```text
//! let catalog = Catalog { geometry, groups, files, entries, dirs, counts, log, lsns };
//! match lawful(rt, alloc, workers, &catalog) { .. }
//! ```
#![tactic(auto)]

mod catalogs;
mod clusters;
mod cores;
mod directories;
mod extents;
mod files;
mod findings;
mod groups;
mod lists;
mod names;
mod rest;

pub use catalogs::{BlockLsn, Catalog};
pub use clusters::ClusterRec;
pub use cores::Core;
pub use directories::DirRec;
pub use extents::Extents;
pub use files::FileRec;
pub use findings::{Law, LawFault};
pub use groups::{GroupRec, TreeBlocks};
pub use lists::{Blocks, Records};
pub use names::{is_directory, is_name, type_of};
pub use rest::Rest;
