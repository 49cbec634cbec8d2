//! Laws of names, for those who build on what is decided.

ghost use Rattle.std.specs.Prelude.{◌≡◌, ℕ, ◌+◌, [], map, length, true, not};
ghost use Rattle.std.specs.List.{All, filter};
ghost use Rattle.xfs_collections.specs.Lists.{AreOnce};
ghost use Rattle.xfs_links.specs.Entries.{passes, candidate_entries, is_directory_number};
ghost use Rattle.xfs_links.specs.Walk.{is_attached, walk};
ghost use Rattle.xfs_links.specs.Connected.{named_by, directory_numbers, starts, staying, attached_directories, kept_entries};

use crate::NodeRec;
use xfs_dirdata::EntryRec;

/// What holds of the names of any files: each entry that stays can name its file; of files that are no
/// directories every candidate stays until the way is cleared; each directory is attached, and none twice;
/// and more steps than there are directories change nothing. It does nothing.
pub fn names_hold(_files: &[NodeRec], _entries: &[EntryRec], _root: u64)
    requires { is_directory_number _files.now _root ≡ true }
    ensures pass { All (λ e. passes _files.now _root e ≡ true) (kept_entries _files.now _entries.now _root) }
    ensures others_stay { filter (λ e. not (is_directory_number _files.now e.ino)) (staying _files.now (attached_directories _files.now _entries.now _root) [] (candidate_entries _files.now _root _entries.now))
        ≡ filter (λ e. not (is_directory_number _files.now e.ino)) (candidate_entries _files.now _root _entries.now) }
    ensures attached { (n : ℕ) → is_directory_number _files.now n ≡ true → is_attached (attached_directories _files.now _entries.now _root) n ≡ true }
    ensures once { AreOnce (map (λ a. a.directory) (attached_directories _files.now _entries.now _root)) }
    ensures known { (n : ℕ) → is_attached (attached_directories _files.now _entries.now _root) n ≡ true → is_directory_number _files.now n ≡ true }
    ensures enough { (more : ℕ) → walk (named_by _files.now (candidate_entries _files.now _root _entries.now)) (length (directory_numbers _files.now) + more) _root [] (starts _files.now (candidate_entries _files.now _root _entries.now) _root)
        ≡ attached_directories _files.now _entries.now _root }
{}
