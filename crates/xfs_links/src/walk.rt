//! The walk: directories are attached one after the other, from the starting points on.

ghost use Rattle.std.specs.Prelude.{◌≡◌, ℕ, ◌<◌, ◌≤◌, ◌^◌, ◌+◌, ◌==◌, ◌&&◌, not, true, false, List, [], ◌∷◌, ◌++◌, map, length, IfOk, OnOk, Option, None, Some, IfSome, nat_lt, if◌then◌else◌, slice_index_or, count_by};
ghost use Rattle.std.specs.List.{All, filter, list_any, range_with_len};
ghost use Rattle.std.specs.List.Sorted.{IsNonDecreasingBy};
ghost use Rattle.xfs_collections.specs.Lists.{has_node, list_at, AreOnce};
ghost use Rattle.xfs_links.specs.Entries.{is_directory_at_place};
ghost use Rattle.xfs_links.specs.Walk.{is_attached, see_all, turn_at, attached_at, begin as begun, walk as walked, attached_parent};
ghost use Rattle.xfs_links.specs.Places.{targets, candidates_at as group_at, named_at, is_target, starts_at, are_equal, IsSteady};

use crate::candidates::Candidate;
use crate::lookup::is_directory_at_place;
use crate::records::{DIRECTORY, NodeRec};
use std::alloc::Global;
use xfs_collections::Weave;
use xfs_disk::NoMemory;

/// A directory that is attached.
#[derive(Clone, Copy)]
pub struct Attached {
    /// The directory.
    pub directory: u32,
    /// Its parent; `None` where it goes to `lost+found`.
    pub parent: Option<u32>,
}

/// The list of directories that are not attached yet, in the order of the starting points.
const PENDING: u32 = 0;
/// The list of files with a parent.
const ATTACHED: u32 = 1;
/// The list of files without one.
const ORPHANS: u32 = 2;

const LISTS: u32 = 3;

/// All directories in the order in which they are attached. Files go by their places.
pub fn attach_all(
    alloc: Global,
    files: &[NodeRec],
    candidates: &[Candidate],
    root: u32,
) -> Result<Vec<Attached>, NoMemory>
    requires few { length files.now < 2 ^ 32 }
    requires directories { All (λ c. c.directory < length files.now) candidates.now }
    requires targets { All (λ c. c.target < length files.now) candidates.now }
    requires sorted { IsNonDecreasingBy (λ (c : Candidate). c.directory) candidates.now }
    requires root { root < length files.now }
    requires directory { is_directory_at_place files.now root ≡ true }
    ensures turn { IfOk result (λ turn. turn.items ≡ walked (named_at files.now candidates.now) (count_by (λ f. f.kind == 4) files.now) root [] (starts_at files.now candidates.now root)) }
{
    let starts = starts(alloc, files, candidates, root)?;
    let mut weave = pending(alloc, files.len() as u32, &starts)?;
    let steps = count_directories(files);
    let mut turn = Vec::new(alloc);
    while let Some(start) = weave.first(PENDING) {
        begin(files, candidates, root, steps, &mut weave, &mut turn, start)?;
    }
    Ok(turn)
}

/// How many directories there are.
fn count_directories(files: &[NodeRec]) -> usize
    ensures { result ≡ count_by (λ f. f.kind == 4) files.now }
{
    let mut count = 0;
    for file in files {
        if file.kind == DIRECTORY {
            count += 1;
        }
    }
    count
}

/// A weave of the files in which the starting points are pending.
fn pending(alloc: Global, count: u32, starts: &[u32]) -> Result<Weave, NoMemory>
    requires once { AreOnce starts.now }
    requires inside { All (λ p. p < count) starts.now }
    ensures nodes { IfOk result (λ weave. weave.nodes ≡ count) }
    ensures lists { IfOk result (λ weave. length weave.lists ≡ 3) }
    ensures pending { IfOk result (λ weave. list_at weave 0 ≡ starts.now) }
{
    let mut weave = Weave::make(alloc, count, LISTS)?;
    for start in starts {
        weave.move_to(PENDING, *start);
    }
    Ok(weave)
}

/// Whether a directory is not attached yet.
fn is_pending(weave: &Weave, place: u32) -> bool
    requires node { place < weave.now.nodes }
    requires lists { length weave.now.lists ≡ 3 }
    ensures { result ≡ has_node place (list_at weave.now 0) }
{
    match weave.list_of(place) {
        Some(list) => list == PENDING,
        None => false,
    }
}

/// Attaches a starting point and the directories below it.
fn begin(
    files: &[NodeRec],
    candidates: &[Candidate],
    root: u32,
    steps: usize,
    weave: &mut Weave,
    turn: &mut Vec<Attached>,
    start: u32,
) -> Result<(), NoMemory>
    requires few { length files.now < 2 ^ 32 }
    requires directories { All (λ c. c.directory < length files.now) candidates.now }
    requires targets { All (λ c. c.target < length files.now) candidates.now }
    requires sorted { IsNonDecreasingBy (λ (c : Candidate). c.directory) candidates.now }
    requires steady { IsSteady files.now weave.old turn.old.items }
    requires inside { start < length files.now }
    requires start { has_node start (list_at weave.old 0) ≡ true }
    requires steps { steps < 2 ^ 32 }
    ensures turn { OnOk result (turn.new.items ≡ begun (named_at files.now candidates.now) steps root turn.old.items start) }
    ensures steady { OnOk result (IsSteady files.now weave.new turn.new.items) }
    ensures pending { OnOk result (list_at weave.new 0 ≡ filter (λ p. not (is_attached turn.new.items p)) (list_at weave.old 0)) }
{
    let from = turn.as_slice().len();
    attach(
        files,
        weave,
        turn,
        start_list(root, start),
        start,
        start_parent(root, start),
    )?;
    for step in 0..steps {
        let Some(directory) = directory_at(turn, from + step) else {
            break;
        };
        take_directory(
            files,
            group_of(candidates, directory),
            directory,
            weave,
            turn,
        )?;
    }
    Ok(())
}

/// The directory that was attached as the `k`-th, from 0.
fn directory_at(turn: &[Attached], k: usize) -> Option<u32>
    ensures { result ≡ (if nat_lt k (length turn.now) then Some (turn_at turn.now k) else None) }
{
    if k < turn.len() {
        Some(turn[k].directory)
    } else {
        None
    }
}

/// The parent of a starting point: the root's is the root.
fn start_parent(root: u32, start: u32) -> Option<u32>
    ensures { result ≡ (if start == root then Some root else None) }
{
    if start == root { Some(root) } else { None }
}

/// The list for a starting point.
fn start_list(root: u32, start: u32) -> u32
    ensures { (1 ≤ result) × (result < 3) }
{
    if start == root { ATTACHED } else { ORPHANS }
}

/// Attaches a directory, and puts it last.
fn attach(
    files: &[NodeRec],
    weave: &mut Weave,
    turn: &mut Vec<Attached>,
    list: u32,
    directory: u32,
    parent: Option<u32>,
) -> Result<(), NoMemory>
    requires steady { IsSteady files.now weave.old turn.old.items }
    requires inside { directory < length files.now }
    requires pending { has_node directory (list_at weave.old 0) ≡ true }
    requires list { (1 ≤ list) × (list < 3) }
    ensures turn { OnOk result (turn.new.items ≡ turn.old.items ++ attached_at directory parent ∷ []) }
    ensures steady { OnOk result (IsSteady files.now weave.new turn.new.items) }
    ensures pending { OnOk result (list_at weave.new 0 ≡ filter (λ p. not (is_attached turn.new.items p)) (list_at weave.old 0)) }
{
    weave.move_to(list, directory);
    turn.push(Attached { directory, parent })?;
    Ok(())
}

/// Attaches what the entries of a directory name and is not attached.
fn take_directory(
    files: &[NodeRec],
    group: &[Candidate],
    directory: u32,
    weave: &mut Weave,
    turn: &mut Vec<Attached>,
) -> Result<(), NoMemory>
    requires targets { All (λ c. c.target < length files.now) group.now }
    requires steady { IsSteady files.now weave.old turn.old.items }
    ensures turn { OnOk result (turn.new.items ≡ see_all directory turn.old.items (targets files.now group.now)) }
    ensures steady { OnOk result (IsSteady files.now weave.new turn.new.items) }
    ensures pending { OnOk result (list_at weave.new 0 ≡ filter (λ p. not (is_attached turn.new.items p)) (list_at weave.old 0)) }
{
    for candidate in group {
        let target = candidate.target;
        if !is_pending(weave, target) {
            continue;
        }
        attach(files, weave, turn, ATTACHED, target, Some(directory))?;
    }
    Ok(())
}

/// The candidates of a directory.
fn group_of(candidates: &[Candidate], directory: u32) -> &[Candidate]
    requires { IsNonDecreasingBy (λ (c : Candidate). c.directory) candidates.now }
    ensures group { result.now ≡ group_at candidates.now directory }
{
    let start = candidates.partition_point(|candidate| candidate.directory < directory);
    let rest = candidates.split_at(start).1;
    let count = rest.partition_point(|candidate| candidate.directory <= directory);
    rest.split_at(count).0
}

/// The starting points: the root, the directories that no candidate names, all other directories.
fn starts(
    alloc: Global,
    files: &[NodeRec],
    candidates: &[Candidate],
    root: u32,
) -> Result<Vec<u32>, NoMemory>
    requires few { length files.now < 2 ^ 32 }
    requires targets { All (λ c. c.target < length files.now) candidates.now }
    ensures starts { IfOk result (λ starts. starts.items ≡ starts_at files.now candidates.now root) }
{
    let named = named_places(alloc, files.len(), candidates)?;
    let mut starts = Vec::new(alloc);
    starts.push(root)?;
    push_starts(files, &named, root, false, &mut starts)?;
    push_starts(files, &named, root, true, &mut starts)?;
    Ok(starts)
}

/// Puts the directories other than the root behind the others, those that are named or those that are not.
fn push_starts(
    files: &[NodeRec],
    named: &[bool],
    root: u32,
    is_named: bool,
    starts: &mut Vec<u32>,
) -> Result<(), NoMemory>
    requires few { length files.now < 2 ^ 32 }
    requires size { length named.now ≡ length files.now }
    ensures starts { OnOk result (starts.new.items ≡ starts.old.items ++ filter (λ p. is_directory_at_place files.now p && (not (p == root) && are_equal is_named (slice_index_or named.now p false))) (range_with_len 0 (length files.now))) }
{
    for place in 0..files.len() as u32 {
        if !is_start(files, named, root, is_named, place) {
            continue;
        }
        starts.push(place)?;
    }
    Ok(())
}

/// Whether the directory at a place is such a starting point.
fn is_start(files: &[NodeRec], named: &[bool], root: u32, is_named: bool, place: u32) -> bool
    requires size { length named.now ≡ length files.now }
    requires inside { place < length files.now }
    ensures { result ≡ (is_directory_at_place files.now place && (not (place == root) && are_equal is_named (slice_index_or named.now place false))) }
{
    is_directory_at_place(files, place) && place != root && named[place as usize] == is_named
}

/// Whether a candidate names the file, for each place.
pub fn named_places(
    alloc: Global,
    count: usize,
    candidates: &[Candidate],
) -> Result<Vec<bool>, NoMemory>
    requires targets { All (λ c. c.target < count) candidates.now }
    ensures size { IfOk result (λ named. length named.items ≡ count) }
    ensures named { IfOk result (λ named. (p : ℕ) → p < count → slice_index_or named.items p false ≡ is_target candidates.now p) }
{
    let mut named = vec![in alloc; false; count]?;
    for candidate in candidates {
        named[candidate.target as usize] = true;
    }
    Ok(named)
}

/// The parent of each directory, by place.
pub fn parents_of(
    alloc: Global,
    count: usize,
    turn: &[Attached],
) -> Result<Vec<Option<u32>>, NoMemory>
    requires inside { All (λ a. a.directory < count) turn.now }
    ensures size { IfOk result (λ parents. length parents.items ≡ count) }
    ensures parents { IfOk result (λ parents. (p : ℕ) → p < count → slice_index_or parents.items p None ≡ attached_parent turn.now p) }
{
    let mut parents = vec![in alloc; None; count]?;
    let mut left = turn.len();
    while left > 0 {
        left -= 1;
        let attached = turn[left];
        parents[attached.directory as usize] = attached.parent;
    }
    Ok(parents)
}
