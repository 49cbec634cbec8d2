//! The law of a volume that has the names that were decided.

ghost use Rattle.std.specs.Prelude.{◌≡◌, ◌<◌, ◌^◌, ◌⊎◌, ℕ, length, true, false, [], ◌∷◌};
ghost use Rattle.std.specs.List.{All, Any};
ghost use Rattle.xfs_dirdata.specs.declared.records.EntryRec.{EntryRec};
ghost use Rattle.xfs_volume.specs.declared.files.FileRec.{FileRec};
ghost use Rattle.xfs_volume.specs.Names.{type_of, entry_type};
ghost use Rattle.xfs_naming.specs.Lawful.{HasLawfulEntries, HasLawfulPlaces};
ghost use Rattle.xfs_links.specs.Entries.{is_kept_node, is_directory_number, is_reserved_inode, AreFiles, AreEntries};
ghost use Rattle.xfs_links.specs.Settled.{IsSettled};
ghost use Rattle.xfs_links.specs.Cycle.{cycle_nodes, cycle_listed, cycle_entries, cycle_dirs};

use crate::NodeRec;
use xfs_dirdata::EntryRec;
use xfs_volume::{DirRec, FileRec};

/// Where a volume has all names together, by directory, and its directories are whole and state their parents, its entries are
/// lawful once their types are, and its files and directories have lawful places.
pub fn settled_names_are_lawful(
    _nodes: &[NodeRec],
    _listed: &[EntryRec],
    _root: u64,
    _new: u64,
    _files: &[FileRec],
    _entries: &[EntryRec],
    _dirs: &[DirRec],
)
    requires nodes { AreFiles _nodes.now }
    requires listed { AreEntries _nodes.now _listed.now }
    requires few { length _listed.now < 2 ^ 64 }
    requires root { is_directory_number _nodes.now _root ≡ true }
    requires system { (n : ℕ) → is_directory_number _nodes.now n ≡ true → is_reserved_inode _root n ≡ true → n ≡ _root }
    requires new { is_kept_node _nodes.now _new ≡ false }
    requires free { is_reserved_inode _root _new ≡ false }
    requires settled { IsSettled _nodes.now _listed.now _root _new _files.now _entries.now _dirs.now }
    ensures entries { All (λ (e : EntryRec). (e.ftype ≡ 0) ⊎ Any (λ (f : FileRec). (f.ino ≡ e.ino) × (e.ftype ≡ entry_type (type_of f))) _files.now) _entries.now
        → HasLawfulEntries _root _files.now _entries.now _dirs.now }
    ensures places { HasLawfulPlaces _root _files.now _entries.now _dirs.now }
{}

/// Such a volume is one where two directories name each other: the first of them stands in a new `lost+found`.
pub fn cycle_is_settled()
    ensures { (a b c d : FileRec) → a.ino ≡ 128 → b.ino ≡ 150 → c.ino ≡ 151 → d.ino ≡ 200 → type_of a ≡ 4 → type_of b ≡ 4 → type_of c ≡ 4 → type_of d ≡ 4
        → IsSettled cycle_nodes cycle_listed 128 200 (a ∷ b ∷ c ∷ d ∷ []) cycle_entries cycle_dirs }
{}
