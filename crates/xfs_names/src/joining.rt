//! The entries of all directories.

ghost use Rattle.std.specs.Prelude.{◌≡◌, ◌≤◌, ◌^◌, length, true, map, IfOk, if◌then◌else◌};
ghost use Rattle.std.specs.List.{All};
ghost use Rattle.std.specs.List.Sorted.{IsNonDecreasingBy};
ghost use Rattle.xfs_collections.specs.Lists.{has_node};
ghost use Rattle.xfs_dirdata.specs.declared.records.EntryRec.{EntryRec};
ghost use Rattle.xfs_links.specs.Entries.{NodesAscend};
ghost use Rattle.xfs_links.specs.Connected.{directory_numbers};
ghost use Rattle.xfs_links.specs.Together.{orphan_entry, lost_entry, lost_directory, is_new};
ghost use Rattle.xfs_links.specs.Settled.{by_directory as each_directory};
ghost use Rattle.xfs_names.specs.Wanted.{with_type, with_directory};
ghost use Rattle.xfs_names.specs.Private.Joined.{joined};

use crate::lookup::kind_near;
use std::alloc::Global;
use xfs_dirdata::EntryRec;
use xfs_disk::{NoMemory, Word};
use xfs_links::{DIRECTORY, NodeRec};
use xfs_naming::entry_type;
use xfs_volume::Records;

/// The files, and a directory more where one is added.
pub fn with_lost(
    alloc: Global,
    nodes: &[NodeRec],
    adds: bool,
    new: u64,
) -> Result<Vec<NodeRec>, NoMemory>
    requires { NodesAscend 0 nodes.now }
    ensures { IfOk result (λ all. all.items ≡ (if adds then with_directory new nodes.now else nodes.now)) }
{
    let mut all = Vec::from_slice(alloc, nodes)?;
    if !adds {
        return Ok(all);
    }
    let place = nodes.partition_point(|node| node.ino < new);
    let kind = DIRECTORY;
    all.insert(place, NodeRec { ino: new, kind })?;
    Ok(all)
}

/// All names together: the entries that stay, behind them the orphans in lost+found, and at last lost+found where it is new.
fn together(
    alloc: Global,
    kept: Records<EntryRec>,
    orphans: Records<(u64, Word)>,
    root: u64,
    old: Option<u64>,
    new: u64,
) -> Result<Vec<EntryRec>, NoMemory>
    ensures { IfOk result (λ all. all.items ≡ joined kept orphans root old new) }
{
    let adds = is_new(old, orphans.as_slice());
    let lost = lost_directory(old, new);
    let mut all = kept.into_vec();
    let mut named = orphan_entries(alloc, lost, orphans)?;
    all.append(&mut named)?;
    if adds {
        all.push(lost_entry(alloc, root, new)?)?;
    }
    Ok(all)
}

/// The directory that takes orphans: the one that is there, or else the new one.
pub fn lost_directory(old: Option<u64>, new: u64) -> u64
    ensures { result ≡ lost_directory old new }
{
    match old {
        Some(old) => old,
        None => new,
    }
}

/// Whether lost+found is new: there are orphans, and no directory for them.
pub fn is_new(old: Option<u64>, orphans: &[(u64, Word)]) -> bool
    ensures { result ≡ is_new old orphans.now }
{
    old.is_none() && !orphans.is_empty()
}

/// The entries of orphans in lost+found.
fn orphan_entries(
    alloc: Global,
    lost: u64,
    orphans: Records<(u64, Word)>,
) -> Result<Vec<EntryRec>, NoMemory>
    ensures { IfOk result (λ entries. entries.items ≡ map (orphan_entry lost) orphans) }
{
    let entries = orphans
        .into_vec()
        .into_iter()
        .map(|orphan| orphan_entry(lost, orphan))
        .collect(alloc)?;
    Ok(entries)
}

/// The entry of an orphan in lost+found; it states no type.
fn orphan_entry(lost: u64, orphan: (u64, Word)) -> EntryRec
    ensures { result ≡ orphan_entry lost orphan }
{
    let (ino, name) = orphan;
    EntryRec {
        dir: lost,
        name,
        ino,
        ftype: 0,
    }
}

/// The entry of a new lost+found; it states no type.
fn lost_entry(alloc: Global, root: u64, new: u64) -> Result<EntryRec, NoMemory>
    ensures { IfOk result (λ entry. entry ≡ lost_entry root new) }
{
    Ok(EntryRec {
        dir: root,
        name: Word::from_slice(alloc, b"lost+found")?,
        ino: new,
        ftype: 0,
    })
}

/// The same, one directory after the other.
fn by_directory(
    alloc: Global,
    nodes: &[NodeRec],
    kept: Records<EntryRec>,
    orphans: Records<(u64, Word)>,
    root: u64,
    old: Option<u64>,
    new: u64,
) -> Result<Vec<EntryRec>, NoMemory>
    requires nodes { NodesAscend 0 nodes.now }
    requires known { All (λ (e : EntryRec). has_node e.dir (directory_numbers nodes.now) ≡ true) (joined kept orphans root old new) }
    ensures grouped { IfOk result (λ all. all.items ≡ each_directory (joined kept orphans root old new) (directory_numbers nodes.now)) }
    ensures rise { IfOk result (λ all. IsNonDecreasingBy (λ (e : EntryRec). e.dir) all.items) }
{
    let mut all = together(alloc, kept, orphans, root, old, new)?;
    all.sort_by_key(|entry| entry.dir)?;
    Ok(all)
}

/// Lets each entry state the type of the file that it names.
fn set_types(nodes: &[NodeRec], entries: &mut [EntryRec])
    requires { NodesAscend 0 nodes.now }
    ensures { entries.new ≡ map (with_type nodes.now) entries.old }
{
    let mut near = 0;
    for entry in entries.iter_mut() {
        set_type(nodes, &mut near, entry);
    }
}

/// Entries, each with the type of the file that it names.
fn with_types(nodes: &[NodeRec], all: Vec<EntryRec>) -> Records<EntryRec>
    requires { NodesAscend 0 nodes.now }
    ensures { result ≡ map (with_type nodes.now) all.items }
{
    let mut all = all;
    set_types(nodes, all.as_mut_slice());
    Records::from_vec(all)
}

/// Lets an entry state the type of the file that it names. `near` is a place at which the file may stand.
fn set_type(nodes: &[NodeRec], near: &mut usize, entry: &mut EntryRec)
    requires { NodesAscend 0 nodes.now }
    ensures { entry.new ≡ with_type nodes.now entry.old }
{
    entry.ftype = entry_type(u16::from(kind_near(nodes, near, entry.ino)));
}

/// How many entries all directories together may have.
const MOST_ENTRIES: usize = 1 << 24;

/// All names together, one directory after the other, each entry with the type of the file that it names. `NoMemory` also where
/// they are more than 2^24.
pub fn all_entries(
    alloc: Global,
    nodes: &[NodeRec],
    kept: Records<EntryRec>,
    orphans: Records<(u64, Word)>,
    root: u64,
    old: Option<u64>,
    new: u64,
) -> Result<Records<EntryRec>, NoMemory>
    requires nodes { NodesAscend 0 nodes.now }
    requires known { All (λ (e : EntryRec). has_node e.dir (directory_numbers nodes.now) ≡ true) (joined kept orphans root old new) }
    ensures few { IfOk result (λ entries. length entries ≤ 2 ^ 24) }
    ensures rise { IfOk result (λ entries. IsNonDecreasingBy (λ (e : EntryRec). e.dir) entries) }
    ensures entries { IfOk result (λ entries. entries ≡ map (with_type nodes.now) (each_directory (joined kept orphans root old new) (directory_numbers nodes.now))) }
{
    let all = by_directory(alloc, nodes, kept, orphans, root, old, new)?;
    if all.as_slice().len() > MOST_ENTRIES {
        return Err(NoMemory);
    }
    Ok(with_types(nodes, all))
}
