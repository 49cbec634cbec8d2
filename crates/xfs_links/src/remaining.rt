//! The entries that stay.

ghost use Rattle.std.specs.Prelude.{◌≡◌, ℕ, ◌<◌, ◌^◌, ◌&&◌, not, length, map, IfOk, Option, None, IfSome, true, false, [], if◌then◌else◌, slice_index_or};
ghost use Rattle.std.specs.List.{All, filter, filter_map, list_any, range_with_len};
ghost use Rattle.xfs_links.specs.Entries.{is_directory_at_place};
ghost use Rattle.xfs_links.specs.Connected.{names_lost_found as names_lost, is_parent};
ghost use Rattle.xfs_links.specs.Places.{candidate_entry, parent_at, staying_at, cleared_at, in_the_way_at, lost_at, listed_at, listed_pair};

use crate::candidates::Candidate;
use crate::lookup::is_directory_at_place;
use crate::orphans::has_orphan;
use crate::records::NodeRec;
use crate::walk::named_places;
use std::alloc::Global;
use xfs_dirdata::EntryRec;
use xfs_disk::{NoMemory, Word};
use xfs_volume::Records;

/// The candidates that stay: one that names a directory only where it is the first of the directory's
/// parent that names it.
pub fn staying(
    alloc: Global,
    files: &[NodeRec],
    parents: &[Option<u32>],
    candidates: &[Candidate],
) -> Result<Vec<Candidate>, NoMemory>
    requires targets { All (λ c. c.target < length files.now) candidates.now }
    requires size { length parents.now ≡ length files.now }
    ensures staying { IfOk result (λ staying. staying.items ≡ staying_at files.now parents.now [] candidates.now) }
{
    let mut met = vec![in alloc; false; files.len()]?;
    let mut staying = Vec::new(alloc);
    for candidate in candidates {
        if !stays(files, parents, &met, candidate) {
            continue;
        }
        met[candidate.target as usize] = true;
        staying.push(*candidate)?;
    }
    Ok(staying)
}

/// Whether a candidate stays behind those that stay before it, whose files are flagged.
fn stays(files: &[NodeRec], parents: &[Option<u32>], met: &[bool], candidate: &Candidate) -> bool
    requires target { candidate.now.target < length files.now }
    requires size { length parents.now ≡ length files.now }
    requires flags { length met.now ≡ length files.now }
    ensures { result ≡ (if is_directory_at_place files.now candidate.now.target then (is_parent candidate.now.directory (parent_at parents.now candidate.now.target) && not (slice_index_or met.now candidate.now.target false)) else true) }
{
    if !is_directory_at_place(files, candidate.target) {
        return true;
    }
    match parents[candidate.target as usize] {
        Some(parent) => parent == candidate.directory && !met[candidate.target as usize],
        None => false,
    }
}

/// The entries that stay, without one that is in the way of orphans.
pub fn cleared_entries(
    alloc: Global,
    files: &[NodeRec],
    entries: &[EntryRec],
    root: u64,
    parents: &[Option<u32>],
    staying: Vec<Candidate>,
) -> Result<Vec<Candidate>, NoMemory>
    requires few { length files.now < 2 ^ 32 }
    requires root { root < 2 ^ 32 }
    requires entries { All (λ c. c.entry < length entries.now) staying.items }
    requires targets { All (λ c. c.target < length files.now) staying.items }
    requires size { length parents.now ≡ length files.now }
    ensures cleared { IfOk result (λ kept. kept.items ≡ cleared_at files.now entries.now root parents.now staying.items) }
{
    let named = named_places(alloc, files.len(), &staying)?;
    if !has_orphan(files, root, parents, &named) {
        return Ok(staying);
    }
    without_way(alloc, files, entries, root, &staying)
}

/// The candidates but those that are in the way.
fn without_way(
    alloc: Global,
    files: &[NodeRec],
    entries: &[EntryRec],
    root: u64,
    staying: &[Candidate],
) -> Result<Vec<Candidate>, NoMemory>
    requires entries { All (λ c. c.entry < length entries.now) staying.now }
    requires targets { All (λ c. c.target < length files.now) staying.now }
    ensures { IfOk result (λ kept. kept.items ≡ filter (λ c. not (in_the_way_at files.now entries.now root c)) staying.now) }
{
    let mut kept = Vec::new(alloc);
    for candidate in staying {
        if is_in_the_way(files, entries, root, candidate) {
            continue;
        }
        kept.push(*candidate)?;
    }
    Ok(kept)
}

/// Whether the entry is the root's `lost+found`.
pub fn names_lost_found(entries: &[EntryRec], root: u64, candidate: &Candidate) -> bool
    requires { candidate.now.entry < length entries.now }
    ensures { result ≡ names_lost root (candidate_entry entries.now candidate.now) }
{
    let entry = &entries[candidate.entry];
    entry.dir == root && entry.name.bytes() == b"lost+found".as_slice()
}

/// Whether the entry is the root's `lost+found`, and names no directory.
fn is_in_the_way(files: &[NodeRec], entries: &[EntryRec], root: u64, candidate: &Candidate) -> bool
    requires entry { candidate.now.entry < length entries.now }
    requires target { candidate.now.target < length files.now }
    ensures { result ≡ in_the_way_at files.now entries.now root candidate.now }
{
    names_lost_found(entries, root, candidate) && !is_directory_at_place(files, candidate.target)
}

/// Whether the entry is the root's `lost+found`, and names a directory.
fn is_lost(files: &[NodeRec], entries: &[EntryRec], root: u64, candidate: &Candidate) -> bool
    requires entry { candidate.now.entry < length entries.now }
    requires target { candidate.now.target < length files.now }
    ensures { result ≡ (names_lost root (candidate_entry entries.now candidate.now) && is_directory_at_place files.now candidate.now.target) }
{
    names_lost_found(entries, root, candidate) && is_directory_at_place(files, candidate.target)
}

/// The place of the root's directory `lost+found`.
pub fn find_lost(
    files: &[NodeRec],
    entries: &[EntryRec],
    root: u64,
    candidates: &[Candidate],
) -> Option<u32>
    requires entries { All (λ c. c.entry < length entries.now) candidates.now }
    requires targets { All (λ c. c.target < length files.now) candidates.now }
    ensures { result ≡ lost_at files.now entries.now root candidates.now }
{
    for candidate in candidates {
        if is_lost(files, entries, root, candidate) {
            return Some(candidate.target);
        }
    }
    None
}

/// The entries of the candidates.
pub fn copied(
    alloc: Global,
    entries: &[EntryRec],
    candidates: &[Candidate],
) -> Result<Records<EntryRec>, NoMemory>
    requires entries { All (λ c. c.entry < length entries.now) candidates.now }
    ensures { IfOk result (λ copies. copies ≡ map (candidate_entry entries.now) candidates.now) }
{
    let mut copies = Vec::with_capacity(alloc, candidates.len())?;
    for candidate in candidates {
        let entry = &entries[candidate.entry];
        copies.push(EntryRec {
            dir: entry.dir,
            name: Word::from_slice(alloc, entry.name.bytes())?,
            ino: entry.ino,
            ftype: entry.ftype,
        })?;
    }
    Ok(Records::from_vec(copies))
}

/// Each directory that has a parent, with the parent.
pub fn listed_parents(
    alloc: Global,
    files: &[NodeRec],
    parents: &[Option<u32>],
) -> Result<Records<(u64, u64)>, NoMemory>
    requires few { length files.now < 2 ^ 32 }
    requires size { length parents.now ≡ length files.now }
    requires inside { All (λ parent. IfSome parent (λ p. p < length files.now)) parents.now }
    ensures { IfOk result (λ listed. listed ≡ filter_map (listed_pair files.now parents.now) (range_with_len 0 (length files.now))) }
{
    let mut listed = Vec::new(alloc);
    for place in 0..files.len() as u32 {
        let Some(parent) = listed_parent(files, parents, place) else {
            continue;
        };
        listed.push((files[place as usize].ino, files[parent as usize].ino))?;
    }
    Ok(Records::from_vec(listed))
}

/// The parent of the file at a place, where it is a directory.
fn listed_parent(files: &[NodeRec], parents: &[Option<u32>], place: u32) -> Option<u32>
    requires place { place < length files.now }
    requires size { length parents.now ≡ length files.now }
    requires inside { All (λ parent. IfSome parent (λ p. p < length files.now)) parents.now }
    ensures parent { result ≡ listed_at files.now parents.now place }
    ensures inside { IfSome result (λ p. p < length files.now) }
{
    if is_directory_at_place(files, place) {
        parents[place as usize]
    } else {
        None
    }
}
