//! Orphans and their names.

ghost use Rattle.std.specs.Prelude.{◌≡◌, ℕ, ◌<◌, ◌≤◌, ◌^◌, ◌&&◌, List, Bool, false, length, map, IfOk, Option, None, slice_index_or};
ghost use Rattle.std.specs.List.{All, filter, list_any, range_with_len};
ghost use Rattle.xfs_links.specs.Connected.{lost_name as name_at, free_name as first_free, is_parent};
ghost use Rattle.xfs_links.specs.Places.{orphan_told, orphan_at, taken_at, named_orphan_at};
ghost use Rattle.xfs_links.specs.Private.Taken.{AreTaken};

use crate::candidates::{Candidate, is_reserved_inode};
use crate::lookup::is_directory_at_place;
use crate::records::NodeRec;
use crate::walk::named_places;
use itoa::Buffer;
use std::alloc::Global;
use std::collections::BTreeSet;
use xfs_dirdata::EntryRec;
use xfs_disk::{NoMemory, Word};
use xfs_volume::Records;

/// Whether the file is an orphan: a directory without a parent, or another file without a name.
pub fn is_orphan(
    files: &[NodeRec],
    root: u64,
    parents: &[Option<u32>],
    named: &[bool],
    place: u32,
) -> bool
    requires root { root < 2 ^ 32 }
    requires place { place < length files.now }
    requires parents { length parents.now ≡ length files.now }
    requires named { length named.now ≡ length files.now }
    ensures { result ≡ orphan_told files.now root parents.now (slice_index_or named.now place false) place }
{
    if is_directory_at_place(files, place) {
        parents[place as usize].is_none()
    } else {
        !is_reserved_inode(root, files[place as usize].ino) && !named[place as usize]
    }
}

/// Whether there is an orphan.
pub fn has_orphan(files: &[NodeRec], root: u64, parents: &[Option<u32>], named: &[bool]) -> bool
    requires few { length files.now < 2 ^ 32 }
    requires root { root < 2 ^ 32 }
    requires parents { length parents.now ≡ length files.now }
    requires named { length named.now ≡ length files.now }
    ensures { result ≡ list_any (λ p. orphan_told files.now root parents.now (slice_index_or named.now p false) p) (range_with_len 0 (length files.now)) }
{
    for place in 0..files.len() as u32 {
        if is_orphan(files, root, parents, named, place) {
            return true;
        }
    }
    false
}

/// The orphans by number, each with its name in `lost+found`.
pub fn named_orphans(
    alloc: Global,
    files: &[NodeRec],
    entries: &[EntryRec],
    root: u64,
    parents: &[Option<u32>],
    kept: &[Candidate],
    lost: Option<u32>,
) -> Result<Records<(u64, Word)>, NoMemory>
    requires few { length files.now < 2 ^ 32 }
    requires root { root < 2 ^ 32 }
    requires entries { All (λ c. c.entry < length entries.now) kept.now }
    requires targets { All (λ c. c.target < length files.now) kept.now }
    requires size { length parents.now ≡ length files.now }
    ensures { IfOk result (λ orphans. orphans ≡ map (named_orphan_at files.now entries.now kept.now lost) (filter (orphan_at files.now root parents.now kept.now) (range_with_len 0 (length files.now)))) }
{
    let named = named_places(alloc, files.len(), kept)?;
    let taken = taken_names(alloc, entries, kept, lost)?;
    let mut orphans = Vec::new(alloc);
    for place in 0..files.len() as u32 {
        if !is_orphan(files, root, parents, &named, place) {
            continue;
        }
        let ino = files[place as usize].ino;
        let name = free_name(alloc, &taken, ino, kept.len())?;
        orphans.push((ino, name))?;
    }
    Ok(Records::from_vec(orphans))
}

/// The names of the entries of `lost+found`.
fn taken_names(
    alloc: Global,
    entries: &[EntryRec],
    kept: &[Candidate],
    lost: Option<u32>,
) -> Result<BTreeSet<Vec<u8>>, NoMemory>
    requires entries { All (λ c. c.entry < length entries.now) kept.now }
    ensures { IfOk result (λ taken. AreTaken taken (taken_at entries.now kept.now lost)) }
{
    let mut taken = BTreeSet::new(alloc);
    for candidate in kept {
        if !is_of(candidate, lost) {
            continue;
        }
        let name = Vec::from_slice(alloc, entries[candidate.entry].name.bytes())?;
        let _ = taken.insert(name)?;
    }
    Ok(taken)
}

/// Whether the entry is one of `lost+found`.
fn is_of(candidate: &Candidate, lost: Option<u32>) -> bool
    ensures { result ≡ is_parent candidate.now.directory lost }
{
    match lost {
        Some(place) => place == candidate.directory,
        None => false,
    }
}

/// The first free name of an orphan.
fn free_name(
    alloc: Global,
    taken: &BTreeSet<Vec<u8>>,
    ino: u64,
    steps: usize,
) -> Result<Word, NoMemory>
    ensures { (f : List ℕ → Bool) → AreTaken taken.now f → IfOk result (λ name. name ≡ first_free f ino steps 0) }
{
    for k in 0..steps as u64 {
        let name = lost_name(alloc, ino, k)?;
        if !taken.contains(&name) {
            return Ok(Word::from_vec(name));
        }
    }
    Ok(Word::from_vec(lost_name(alloc, ino, steps as u64)?))
}

/// The `k`-th name that an orphan may get: `n`, `n.1`, `n.2` and so on.
fn lost_name(alloc: Global, ino: u64, k: u64) -> Result<Vec<u8>, NoMemory>
    ensures { IfOk result (λ name. name.items ≡ name_at ino k) }
{
    let mut name = Vec::from_slice(alloc, Buffer::new().format(ino).as_bytes())?;
    if k > 0 {
        name.extend_from_slice(b".")?;
        name.extend_from_slice(Buffer::new().format(k).as_bytes())?;
    }
    Ok(name)
}
