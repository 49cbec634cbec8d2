//! Names of entries.

ghost use Rattle.std.specs.Prelude.{◌≡◌, ◌&&◌, List, IfOk};
ghost use Rattle.std.specs.List.{list_all};
ghost use Rattle.xfs_dirdata.specs.declared.records.EntryRec.{EntryRec};
ghost use Rattle.xfs_volume.specs.Names.{is_name};
ghost use Rattle.xfs_naming.specs.Naming.{names_differ};

use std::alloc::Global;
use std::collections::HashSet;
use xfs_dirdata::EntryRec;
use xfs_disk::NoMemory;
use xfs_volume::is_name;

/// Whether each name can be one.
fn are_names(own: &[EntryRec]) -> bool
    ensures { result ≡ list_all (λ (e : EntryRec). is_name e.name) own.now }
{
    for entry in own {
        if !is_name(entry.name.bytes()) {
            return false;
        }
    }
    true
}

/// Whether no two entries have one name.
fn are_different(alloc: Global, own: &[EntryRec]) -> Result<bool, NoMemory>
    ensures { IfOk result (λ differ. differ ≡ names_differ own.now) }
{
    let mut seen = HashSet::with_capacity(alloc, own.len())?;
    for entry in own {
        if !seen.insert(entry.name.bytes())? {
            return Ok(false);
        }
    }
    Ok(true)
}

/// Whether the names of a directory can be names, and no two are equal.
pub fn has_right_names(alloc: Global, own: &[EntryRec]) -> Result<bool, NoMemory>
    ensures { IfOk result (λ right. right ≡ (list_all (λ (e : EntryRec). is_name e.name) own.now && names_differ own.now)) }
{
    if !are_names(own) {
        return Ok(false);
    }
    are_different(alloc, own)
}
