//! All names that are wanted.

ghost use Rattle.std.specs.Prelude.{◌≡◌, ◌<◌, ◌≤◌, ◌^◌, map, length, true, false, IfOk};
ghost use Rattle.std.specs.List.Sorted.{IsNonDecreasingBy};
ghost use Rattle.xfs_dirdata.specs.declared.records.EntryRec.{EntryRec};
ghost use Rattle.xfs_volume.specs.declared.directories.DirRec.{DirRec};
ghost use Rattle.xfs_naming.specs.Naming.{NumbersAscend};
ghost use Rattle.xfs_links.specs.Entries.{AreFiles, AreEntries, NodesAscend, is_kept_node, is_directory_number};
ghost use Rattle.xfs_names.specs.Wanted.{AreDecided, wanted_entries, wanted_parents, wanted_links};
ghost use Rattle.xfs_names.specs.Rebuilt.{wanted_rebuilt};
ghost use Rattle.xfs_names.specs.Built.{CanBeBuilt};
ghost use Rattle.xfs_names.specs.Private.Named.{AreNamesOf};

use crate::comparing::rebuilt_among;
use crate::joining::{all_entries, is_new, lost_directory, with_lost};
use crate::linking::all_links;
use crate::parenting::all_parents;
use crate::records::WantedNames;
use std::alloc::Global;
use xfs_dirdata::EntryRec;
use xfs_disk::NoMemory;
use xfs_links::{DecidedNames, NodeRec};
use xfs_volume::{DirRec, Records};

/// The names that files are to have, of those that were decided for them: the entries of each directory, the parents, the links of
/// each file, and which directories are built anew. Files ascend by number, entries that were read stand by directory as `connect`
/// asks, and what was found of the directories by number. `new` is the number of lost+found where that is new, and any number
/// that no file has where it is not.
///
/// `NoMemory` where memory is wanting, or where there are more than 2^24 entries.
pub fn want_names(
    alloc: Global,
    nodes: &[NodeRec],
    listed: &[EntryRec],
    dirs: &[DirRec],
    root: u64,
    new: u64,
    names: DecidedNames,
) -> Result<WantedNames, NoMemory>
    requires nodes { AreFiles nodes.now }
    requires listed { AreEntries nodes.now listed.now }
    requires dirs { NumbersAscend 0 (map (λ (d : DirRec). d.ino) dirs.now) }
    requires root { is_directory_number nodes.now root ≡ true }
    requires low { root < 2 ^ 32 }
    requires new { is_kept_node nodes.now new ≡ false }
    requires names { AreDecided nodes.now listed.now root names }
    ensures buildable { IfOk result (λ wanted. new < 2 ^ 32 → CanBeBuilt wanted) }
    ensures few { IfOk result (λ wanted. length wanted.entries ≤ 2 ^ 24) }
    ensures entries { IfOk result (λ wanted. wanted.entries ≡ wanted_entries nodes.now listed.now root new) }
    ensures parents { IfOk result (λ wanted. wanted.parents ≡ wanted_parents nodes.now listed.now root new) }
    ensures links { IfOk result (λ wanted. wanted.links ≡ wanted_links nodes.now listed.now root new) }
    ensures rebuilt { IfOk result (λ wanted. wanted.rebuilt ≡ wanted_rebuilt nodes.now listed.now dirs.now root new) }
{
    let DecidedNames {
        entries,
        parents,
        orphans,
        lost,
    } = names;
    let adds = is_new(lost, orphans.as_slice());
    let all = with_lost(alloc, nodes, adds, new)?;
    let above = lost_directory(lost, new);
    let parents = all_parents(alloc, &all, parents.as_slice(), root, above, new)?;
    let entries = all_entries(alloc, &all, entries, orphans, root, lost, new)?;
    join_names(alloc, &all, listed, dirs, root, entries, parents)
}

/// The entries and parents, with the links of each file and the directories that are built anew.
fn join_names(
    alloc: Global,
    nodes: &[NodeRec],
    listed: &[EntryRec],
    dirs: &[DirRec],
    root: u64,
    entries: Records<EntryRec>,
    parents: Records<(u64, u64)>,
) -> Result<WantedNames, NoMemory>
    requires nodes { NodesAscend 0 nodes.now }
    requires listed { IsNonDecreasingBy (λ (e : EntryRec). e.dir) listed.now }
    requires dirs { IsNonDecreasingBy (λ (d : DirRec). d.ino) dirs.now }
    requires root { root < 2 ^ 32 }
    requires few { length entries ≤ 2 ^ 24 }
    requires rise { IsNonDecreasingBy (λ (e : EntryRec). e.dir) entries }
    ensures { IfOk result (AreNamesOf nodes.now listed.now dirs.now root entries parents) }
{
    let links = all_links(alloc, nodes, entries.as_slice(), root)?;
    let rebuilt = rebuilt_among(alloc, listed, dirs, entries.as_slice(), parents.as_slice())?;
    Ok(WantedNames {
        entries,
        parents,
        links,
        rebuilt,
    })
}
