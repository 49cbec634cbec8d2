//! The law of a volume that has the names that are wanted. It does nothing; its contract is the law.

ghost use Rattle.std.specs.Prelude.{◌≡◌, ◌<◌, ◌^◌, ◌+◌, ℕ, length, true, false};
ghost use Rattle.std.specs.List.{Any};
ghost use Rattle.xfs_naming.specs.Lawful.{IsNamingLawful, IsSystemFile};
ghost use Rattle.xfs_links.specs.Entries.{is_kept_node, is_directory_number, is_reserved_inode, AreFiles, AreEntries};
ghost use Rattle.xfs_names.specs.Wanted.{wanted_entries};
ghost use Rattle.xfs_names.specs.Having.{HasWanted};

use xfs_dirdata::EntryRec;
use xfs_links::{NodeRec, settled_names_are_lawful};
use xfs_volume::{DirRec, FileRec};

/// Where a volume has the files that are wanted with their links, whole directories with the parents that are wanted, and the entries
/// that are wanted, and where its two system inodes are as they have to be, it keeps the laws of names.
pub fn wanted_names_are_lawful(
    nodes: &[NodeRec],
    listed: &[EntryRec],
    root: u64,
    new: u64,
    files: &[FileRec],
    entries: &[EntryRec],
    dirs: &[DirRec],
)
    requires nodes { AreFiles nodes.now }
    requires listed { AreEntries nodes.now listed.now }
    requires few { length listed.now < 2 ^ 64 }
    requires root { is_directory_number nodes.now root ≡ true }
    requires system { (n : ℕ) → is_directory_number nodes.now n ≡ true → is_reserved_inode root n ≡ true → n ≡ root }
    requires new { is_kept_node nodes.now new ≡ false }
    requires free { is_reserved_inode root new ≡ false }
    requires entries { entries.now ≡ wanted_entries nodes.now listed.now root new }
    requires wanted { HasWanted nodes.now listed.now root new files.now dirs.now }
    requires first { Any (IsSystemFile (root + 1)) files.now }
    requires second { Any (IsSystemFile (root + 2)) files.now }
    ensures { IsNamingLawful root files.now entries.now dirs.now }
{
    settled_names_are_lawful(nodes, listed, root, new, files, entries, dirs);
}
