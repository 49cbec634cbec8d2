//! Which directories are built anew.

ghost use Rattle.std.specs.Prelude.{◌≡◌, ◌==◌, ◌&&◌, IfOk};
ghost use Rattle.std.specs.List.{list_any};
ghost use Rattle.std.specs.List.Sorted.{IsNonDecreasingBy};
ghost use Rattle.xfs_dirdata.specs.declared.records.EntryRec.{EntryRec};
ghost use Rattle.xfs_volume.specs.declared.directories.DirRec.{DirRec};
ghost use Rattle.xfs_naming.specs.Naming.{entries_in};
ghost use Rattle.xfs_names.specs.Rebuilt.{is_right_entry, are_right_entries, is_whole_with, is_rebuilt, rebuilt_among};

use std::alloc::Global;
use xfs_dirdata::EntryRec;
use xfs_disk::NoMemory;
use xfs_naming::records_by_number;
use xfs_volume::{DirRec, Records};

/// Whether an entry is as it is wanted; one that states no type does.
fn is_right_entry(held: &EntryRec, due: &EntryRec) -> bool
    ensures { result ≡ is_right_entry held.now due.now }
{
    held.name.bytes() == due.name.bytes()
        && held.ino == due.ino
        && (held.ftype == 0 || held.ftype == due.ftype)
}

/// Whether entries are those that are wanted, one after the other.
fn are_right_entries(held: &[EntryRec], due: &[EntryRec]) -> bool
    ensures { result ≡ are_right_entries held.now due.now }
{
    if held.len() != due.len() {
        return false;
    }
    for k in 0..held.len() {
        if !is_right_entry(&held[k], &due[k]) {
            return false;
        }
    }
    true
}

/// Whether one of these records of a directory is whole, with this parent.
fn have_whole(found: &[DirRec], parent: u64) -> bool
    ensures { result ≡ list_any (λ (r : DirRec). r.whole && r.parent == parent) found.now }
{
    for dir in found {
        if is_whole_under(dir, parent) {
            return true;
        }
    }
    false
}

/// Whether a record of a directory is whole, with this parent.
fn is_whole_under(dir: &DirRec, parent: u64) -> bool
    ensures { result ≡ (dir.now.whole && dir.now.parent == parent) }
{
    dir.whole && dir.parent == parent
}

/// Whether a directory was found whole, with this parent.
fn is_whole_with(dirs: &[DirRec], dir: u64, parent: u64) -> bool
    requires { IsNonDecreasingBy (λ (d : DirRec). d.ino) dirs.now }
    ensures { result ≡ is_whole_with dirs.now dir parent }
{
    have_whole(records_by_number(dirs, dir), parent)
}

/// Whether the entries of a directory are those that are wanted.
fn has_right_entries(listed: &[EntryRec], wanted: &[EntryRec], dir: u64) -> bool
    requires listed { IsNonDecreasingBy (λ (e : EntryRec). e.dir) listed.now }
    requires wanted { IsNonDecreasingBy (λ (e : EntryRec). e.dir) wanted.now }
    ensures { result ≡ are_right_entries (entries_in listed.now dir) (entries_in wanted.now dir) }
{
    are_right_entries(
        records_by_number(listed, dir),
        records_by_number(wanted, dir),
    )
}

/// Whether a directory with its parent is built anew.
fn is_rebuilt(listed: &[EntryRec], dirs: &[DirRec], wanted: &[EntryRec], dir: &(u64, u64)) -> bool
    requires listed { IsNonDecreasingBy (λ (e : EntryRec). e.dir) listed.now }
    requires dirs { IsNonDecreasingBy (λ (d : DirRec). d.ino) dirs.now }
    requires wanted { IsNonDecreasingBy (λ (e : EntryRec). e.dir) wanted.now }
    ensures { result ≡ is_rebuilt listed.now dirs.now wanted.now dir.now }
{
    !(is_whole_with(dirs, dir.0, dir.1) && has_right_entries(listed, wanted, dir.0))
}

/// The directories that are built anew.
pub fn rebuilt_among(
    alloc: Global,
    listed: &[EntryRec],
    dirs: &[DirRec],
    wanted: &[EntryRec],
    parents: &[(u64, u64)],
) -> Result<Records<u64>, NoMemory>
    requires listed { IsNonDecreasingBy (λ (e : EntryRec). e.dir) listed.now }
    requires dirs { IsNonDecreasingBy (λ (d : DirRec). d.ino) dirs.now }
    requires wanted { IsNonDecreasingBy (λ (e : EntryRec). e.dir) wanted.now }
    ensures { IfOk result (λ rebuilt. rebuilt ≡ rebuilt_among listed.now dirs.now wanted.now parents.now) }
{
    let mut rebuilt = Vec::new(alloc);
    for dir in parents {
        if !is_rebuilt(listed, dirs, wanted, dir) {
            continue;
        }
        rebuilt.push(dir.0)?;
    }
    Ok(Records::from_vec(rebuilt))
}
