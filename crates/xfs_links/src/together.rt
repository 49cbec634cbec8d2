//! Laws about the names of any files. Each function does nothing; its contract is the law.

ghost use Rattle.std.specs.Prelude.{◌≡◌, ◌≢◌, ◌<◌, ◌==◌, ◌&&◌, ◌||◌, ◌^◌, ℕ, [], map, length, true, false, List, Some, None, AllPairs};
ghost use Rattle.std.specs.List.{All};
ghost use Rattle.xfs_collections.specs.Lists.{AreOnce};
ghost use Rattle.xfs_dirdata.specs.declared.records.EntryRec.{EntryRec};
ghost use Rattle.xfs_volume.specs.Names.{is_name};
ghost use Rattle.xfs_naming.specs.Lawful.{IsReached};
ghost use Rattle.xfs_links.specs.Entries.{is_kept_node, is_directory_number, is_reserved_inode, AreFiles, AreEntries};
ghost use Rattle.xfs_links.specs.Walk.{is_attached, attached_parent};
ghost use Rattle.xfs_links.specs.Connected.{has_entry, is_taken_name, attached_directories, kept_entries};
ghost use Rattle.xfs_links.specs.Hanging.{IsNamedOnce, IsUnnamed, AreBehindParents};
ghost use Rattle.xfs_links.specs.Together.{NamesDiffer, lost_directory, orphans_of, old_lost, adds_lost, entries_together, parent_together};

use crate::NodeRec;
use xfs_dirdata::EntryRec;

/// Just the directories are attached, none twice, and each behind its parent; the root is its own. Of the entries that stay
/// just one names a directory with a parent, and it is an entry of the parent. None names the root or a directory without a
/// parent, and a directory that none names has none: it is the root or a starting point.
pub fn directories_hang_together(_files: &[NodeRec], _entries: &[EntryRec], _root: u64)
    requires { is_directory_number _files.now _root ≡ true }
    ensures attached { (n : ℕ) → is_directory_number _files.now n ≡ true → is_attached (attached_directories _files.now _entries.now _root) n ≡ true }
    ensures known { (n : ℕ) → is_attached (attached_directories _files.now _entries.now _root) n ≡ true → is_directory_number _files.now n ≡ true }
    ensures once { AreOnce (map (λ a. a.directory) (attached_directories _files.now _entries.now _root)) }
    ensures behind { AreBehindParents _root [] (attached_directories _files.now _entries.now _root) }

    ensures root_parent { attached_parent (attached_directories _files.now _entries.now _root) _root ≡ Some _root }
    ensures root_unnamed { IsUnnamed (kept_entries _files.now _entries.now _root) _root }
    ensures named { (n p : ℕ) → n ≢ _root → attached_parent (attached_directories _files.now _entries.now _root) n ≡ Some p → IsNamedOnce (kept_entries _files.now _entries.now _root) n p }
    ensures unnamed { (n : ℕ) → is_directory_number _files.now n ≡ true → attached_parent (attached_directories _files.now _entries.now _root) n ≡ None → IsUnnamed (kept_entries _files.now _entries.now _root) n }
    ensures starting { (n : ℕ) → is_directory_number _files.now n ≡ true → n ≢ _root → IsUnnamed (kept_entries _files.now _entries.now _root) n → attached_parent (attached_directories _files.now _entries.now _root) n ≡ None }
{}

/// The names that orphans get differ from one another and from those of the entries of `lost+found`, and are names that
/// files can have: there is a free one for each, however many are taken.
pub fn orphans_have_free_names(_files: &[NodeRec], _entries: &[EntryRec], _root: u64)
    requires files { AreFiles _files.now }
    requires few { length _entries.now < 2 ^ 64 }
    ensures differ { AllPairs (λ (a b : ℕ × List ℕ). a.1 ≢ b.1) (orphans_of _files.now _entries.now _root) }
    ensures free { All (λ (o : ℕ × List ℕ). is_taken_name (kept_entries _files.now _entries.now _root) (old_lost _files.now _entries.now _root) o.1 ≡ false) (orphans_of _files.now _entries.now _root) }
    ensures valid { All (λ (o : ℕ × List ℕ). is_name o.1 ≡ true) (orphans_of _files.now _entries.now _root) }
{}

/// Names of one directory differ among the entries that stay.
pub fn names_stay_different(_files: &[NodeRec], _entries: &[EntryRec], _root: u64)
    ensures { AllPairs NamesDiffer (kept_entries _files.now _entries.now _root) }
{}

/// Names of one directory differ also with the orphans in `lost+found`, and with `lost+found` in the root where it is new; it
/// has then a number that no file has.
pub fn names_differ_together(_files: &[NodeRec], _entries: &[EntryRec], _root: u64, _new: u64)
    requires files { AreFiles _files.now }
    requires entries { AreEntries _files.now _entries.now }
    requires few { length _entries.now < 2 ^ 64 }
    requires root { is_directory_number _files.now _root ≡ true }
    requires new { is_kept_node _files.now _new ≡ false }
    ensures { AllPairs NamesDiffer (entries_together _files.now _entries.now _root _new) }
{}

/// Each directory is reached from the root over all names together, and so is a `lost+found` that takes orphans.
pub fn all_are_reached(_files: &[NodeRec], _entries: &[EntryRec], _root: u64, _new: u64)
    requires { is_directory_number _files.now _root ≡ true }
    ensures directories { (n : ℕ) → is_directory_number _files.now n ≡ true → IsReached (entries_together _files.now _entries.now _root _new) _root n }
    ensures lost { orphans_of _files.now _entries.now _root ≢ [] → IsReached (entries_together _files.now _entries.now _root _new) _root (lost_directory (old_lost _files.now _entries.now _root) _new) }
{}

/// All names together name each directory but the root just once, in its parent or in `lost+found`, and each other file but the
/// system's own at least once. A `lost+found` that is new has its one name in the root, and the root has none.
pub fn all_are_named(_files: &[NodeRec], _entries: &[EntryRec], _root: u64, _new: u64)
    requires files { AreFiles _files.now }
    requires root { is_directory_number _files.now _root ≡ true }
    requires new { is_kept_node _files.now _new ≡ false }
    ensures root { IsUnnamed (entries_together _files.now _entries.now _root _new) _root }
    ensures directories { (n : ℕ) → is_directory_number _files.now n ≡ true → n ≢ _root → IsNamedOnce (entries_together _files.now _entries.now _root _new) n (parent_together _files.now _entries.now _root _new n) }
    ensures others { (n : ℕ) → is_kept_node _files.now n ≡ true → is_directory_number _files.now n ≡ false → is_reserved_inode _root n ≡ false → has_entry (entries_together _files.now _entries.now _root _new) n ≡ true }
    ensures lost { adds_lost _files.now _entries.now _root ≡ true → IsNamedOnce (entries_together _files.now _entries.now _root _new) _new _root }
{}

/// All names together are names that files can have, of files that are there or of a `lost+found` that is new. None names the
/// root or one of the system's own inodes, where these are no directories and none of them is the new `lost+found`.
pub fn all_name_files(_files: &[NodeRec], _entries: &[EntryRec], _root: u64, _new: u64)
    requires files { AreFiles _files.now }
    requires few { length _entries.now < 2 ^ 64 }
    ensures valid { All (λ (e : EntryRec). is_name e.name ≡ true) (entries_together _files.now _entries.now _root _new) }
    ensures in_use { All (λ (e : EntryRec). (is_kept_node _files.now e.ino || (adds_lost _files.now _entries.now _root && e.ino == _new)) ≡ true) (entries_together _files.now _entries.now _root _new) }
    ensures ordinary { ((n : ℕ) → is_directory_number _files.now n ≡ true → is_reserved_inode _root n ≡ true → n ≡ _root) → is_reserved_inode _root _new ≡ false
        → All (λ (e : EntryRec). is_reserved_inode _root e.ino ≡ false) (entries_together _files.now _entries.now _root _new) }
{}
