//! Names, directories and orphans.

ghost use Rattle.std.specs.Prelude.{◌≡◌, ℕ, ◌<◌, true, length, Option, option_map, IfOk, IfSome};
ghost use Rattle.xfs_links.specs.Entries.{AreFiles, AreEntries, is_directory_number, node_number};
ghost use Rattle.xfs_links.specs.Connected.{kept_entries, attached_directories, parents as due_parents, named_orphans as due_orphans, lost_of};
ghost use Rattle.xfs_links.specs.Private.Decision.{IsDecision};

use crate::candidates::{Candidate, find_candidates};
use crate::lookup::place_of;
use crate::orphans::named_orphans;
use crate::records::{DecidedNames, NodeRec};
use crate::remaining::{cleared_entries, copied, find_lost, listed_parents, staying};
use crate::walk::{attach_all, parents_of};
use std::alloc::Global;
use xfs_dirdata::EntryRec;
use xfs_disk::NoMemory;

/// What is decided, by places.
#[derive(Drop)]
struct Decision {
    /// The parent of each directory.
    parents: Vec<Option<u32>>,
    /// The candidates that stay in the end.
    kept: Vec<Candidate>,
}

/// Decides which entries stay, where each directory hangs, and which files are orphans. Files ascend by
/// number; entries are grouped by directory, ascending, and stand in file order inside each.
pub fn connect(
    alloc: Global,
    files: &[NodeRec],
    entries: &[EntryRec],
    root: u64,
) -> Result<DecidedNames, NoMemory>
    requires files { AreFiles files.now }
    requires entries { AreEntries files.now entries.now }
    requires root { is_directory_number files.now root ≡ true }
    ensures entries { IfOk result (λ names. names.entries ≡ kept_entries files.now entries.now root) }
    ensures parents { IfOk result (λ names. names.parents ≡ due_parents files.now (attached_directories files.now entries.now root)) }
    ensures orphans { IfOk result (λ names. names.orphans ≡ due_orphans files.now root (attached_directories files.now entries.now root) (kept_entries files.now entries.now root)) }
    ensures lost { IfOk result (λ names. names.lost ≡ lost_of files.now root (kept_entries files.now entries.now root)) }
{
    let Decision { parents, kept } = decide(alloc, files, entries, root)?;
    let lost = find_lost(files, entries, root, &kept);
    let orphans = named_orphans(alloc, files, entries, root, &parents, &kept, lost)?;
    let entries = copied(alloc, entries, &kept)?;
    let parents = listed_parents(alloc, files, &parents)?;
    let lost = number_of(files, lost);
    Ok(DecidedNames {
        entries,
        parents,
        orphans,
        lost,
    })
}

/// The parents and the entries that stay, by places.
fn decide(
    alloc: Global,
    files: &[NodeRec],
    entries: &[EntryRec],
    root: u64,
) -> Result<Decision, NoMemory>
    requires files { AreFiles files.now }
    requires entries { AreEntries files.now entries.now }
    requires root { is_directory_number files.now root ≡ true }
    ensures { IfOk result (λ d. IsDecision files.now entries.now root d.parents.items d.kept.items) }
{
    let candidates = find_candidates(alloc, files, entries, root)?;
    let place = place_of(files, root).unwrap();
    let turn = attach_all(alloc, files, &candidates, place)?;
    let parents = parents_of(alloc, files.len(), &turn)?;
    let staying = staying(alloc, files, &parents, &candidates)?;
    let kept = cleared_entries(alloc, files, entries, root, &parents, staying)?;
    Ok(Decision { parents, kept })
}

/// The number of the file at a place.
fn number_of(files: &[NodeRec], place: Option<u32>) -> Option<u64>
    requires { IfSome place (λ p. p < length files.now) }
    ensures { result ≡ option_map (node_number files.now) place }
{
    match place {
        Some(place) => Some(files[place as usize].ino),
        None => None,
    }
}
