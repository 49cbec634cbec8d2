//! The names that are wanted of a world that a row tells.

ghost use Rattle.std.specs.Prelude.{◌≡◌, ℕ, ◌<◌, ◌^◌, false, true, map, IfOk};
ghost use Rattle.std.specs.List.{All};
ghost use Rattle.xfs_volume.specs.declared.directories.DirRec.{DirRec};
ghost use Rattle.xfs_naming.specs.Naming.{NumbersAscend};
ghost use Rattle.xfs_links.specs.Entries.{AreFiles, AreEntries, is_kept_node, is_directory_number};
ghost use Rattle.xfs_names.specs.Built.{CanBeBuilt};

use super::ordered::{are_ordered, is_free};
use crate::checks::sure;
use crate::items::items;
use crate::links::listed::are_listed;
use crate::text::{Row, refuse, tells};
use std::alloc::Global;
use std::process::Abort;
use xfs_dirdata::EntryRec;
use xfs_disk::NoMemory;
use xfs_links::{NodeRec, connect};
use xfs_names::{LostPlace, WantedNames, lost_place, want_names};
use xfs_volume::DirRec;

/// The number of the root.
const ROOT: u64 = 128;

/// What each number is below.
const LIMIT: u64 = 1 << 32;

/// The names that are wanted. Reads the files, the entries and what was found of the directories, the clusters, where lost+found
/// is placed, at which it fails where that is not so, and the number of a new one.
pub fn wanted_of(rt: &(impl Abort + AllocGlobal), row: &mut Row, case: &str) -> WantedNames
    ensures { CanBeBuilt result }
{
    let alloc = rt.alloc();
    let nodes = items::<NodeRec>(rt, alloc, row.text());
    let listed = items::<EntryRec>(rt, alloc, row.text());
    let dirs = items::<DirRec>(rt, alloc, row.text());
    let clusters: Vec<u64> = Row::new(row.text()).numbers(rt, alloc);
    match wanted_names(rt, alloc, row, &nodes, &listed, &dirs, &clusters, case) {
        Ok(wanted) => wanted,
        Err(_) => refuse(rt, "memory is wanting", case),
    }
}

fn wanted_names(
    rt: &(impl Abort + AllocGlobal),
    alloc: Global,
    row: &mut Row,
    nodes: &[NodeRec],
    listed: &[EntryRec],
    dirs: &[DirRec],
    clusters: &[u64],
    case: &str,
) -> Result<WantedNames, NoMemory>
    ensures { IfOk result (λ wanted. CanBeBuilt wanted) }
{
    sure(rt, are_listed(nodes, listed, ROOT), case);
    sure(rt, are_ordered(dirs, clusters), case);
    let due = row.text();
    let new = row.number(rt);
    sure(rt, is_free(nodes, new), case);
    sure(rt, new < LIMIT, case);
    let (place, wanted) = place_and_names(alloc, nodes, listed, dirs, clusters, new)?;
    tells(rt, &place, due, case);
    Ok(wanted)
}

/// Where lost+found is placed, and all names.
fn place_and_names(
    alloc: Global,
    nodes: &[NodeRec],
    listed: &[EntryRec],
    dirs: &[DirRec],
    clusters: &[u64],
    new: u64,
) -> Result<(LostPlace, WantedNames), NoMemory>
    requires nodes { AreFiles nodes.now }
    requires listed { AreEntries nodes.now listed.now }
    requires root { is_directory_number nodes.now 128 ≡ true }
    requires dirs { NumbersAscend 0 (map (λ (d : DirRec). d.ino) dirs.now) }
    requires clusters { All (λ (first : ℕ). first < 2 ^ 32) clusters.now }
    requires new { is_kept_node nodes.now new ≡ false }
    requires low { new < 2 ^ 32 }
    ensures { IfOk result (λ both. CanBeBuilt both.1) }
{
    let names = connect(alloc, nodes, listed, ROOT)?;
    let place = lost_place(nodes, ROOT, clusters, &names);
    let wanted = want_names(alloc, nodes, listed, dirs, ROOT, new, names)?;
    Ok((place, wanted))
}
