//! The names that there are to be, and the directories that are built anew of them.

ghost use Rattle.std.specs.Prelude.{◌≡◌, ◌<◌, ◌^◌, ◌⊎◌, false, map, IfErr, IfOk, IsTrue};
ghost use Rattle.std.specs.List.{All};
ghost use Rattle.xfs_links.specs.Entries.{AreFiles, is_kept_node};
ghost use Rattle.xfs_naming.specs.Naming.{NumbersAscend, numbers_of};
ghost use Rattle.xfs_names.specs.Built.{CanBeBuilt, IsBuiltAsWanted};
ghost use Rattle.xfs_names.specs.declared.building.BuiltDirectory.{BuiltDirectory};
ghost use Rattle.xfs_place.specs.declared.faults.PlaceFault.TheVariants as place_fault;
ghost use Rattle.xfs_place.specs.declared.faults.Unplaced.TheVariants.{LostFound};
ghost use Rattle.xfs_rebuild.specs.Rebuilds.{HasNamesDue};
ghost use Rattle.xfs_rename.specs.Decided.{AreDecidedFor};
ghost use Rattle.xfs_rename.specs.Lost.{lost_due};
ghost use Rattle.xfs_rename.specs.Renames.{IsSettling, LacksCluster};
ghost use Rattle.xfs_changes.specs.Nodes.{nodes_of_files};
ghost use Rattle.xfs_changes.specs.Rooms.{fork_rooms};

use crate::lost::find_lost;
use std::alloc::Global;
use xfs_changes::{Lost, can_connect, fork_rooms, nodes_of_files};
use xfs_disk::{NoMemory, Stamp};
use xfs_geom::Geometry;
use xfs_links::{DecidedNames, NodeRec, connect};
use xfs_names::{BuiltDirectory, ForkRoom, WantedNames, build_all, is_kept, want_names};
use xfs_place::PlaceFault;
use xfs_rebuild::NamesDue;
use xfs_volume::{FileRec, Records};

/// The first number that no inode can have.
const INODES_END: u64 = 1 << 32;

/// What is settled about names.
#[derive(Drop)]
pub struct Settling {
    /// Where lost+found stands.
    pub lost: Lost,
    /// The names that files are to have.
    pub names: WantedNames,
    /// How many bytes the data forks of directories that are built anew may have.
    pub rooms: Records<ForkRoom>,
    /// The directories that are built anew, by inode.
    pub built: Records<BuiltDirectory>,
    /// How many files are put into lost+found.
    pub orphans: u64,
}

/// Settles the names of a volume.
///
/// `NoRoom` of lost+found where it needs a cluster and finds none; `NoMemory` where memory is wanting, or where what was found
/// cannot be that of any image.
pub(crate) fn settle(
    alloc: Global,
    g: &Geometry,
    due: &NamesDue,
    stamp: &Stamp,
) -> Result<Settling, PlaceFault>
    requires due { HasNamesDue g.now stamp.now due.now }
    ensures settled { IfOk result (IsSettling g.now due.now) }
    ensures cause { IfErr result (λ fault. (fault ≡ place_fault.NoMemory) ⊎ ((fault ≡ place_fault.NoRoom LostFound) × LacksCluster g.now due.now)) }
{
    match nodes_of_files(alloc, due.files.as_slice()) {
        Ok(nodes) => settle_files(alloc, g, due, stamp, &nodes),
        Err(NoMemory) => Err(PlaceFault::NoMemory),
    }
}

/// The same by the files, each by its number and kind.
fn settle_files(
    alloc: Global,
    g: &Geometry,
    due: &NamesDue,
    stamp: &Stamp,
    nodes: &[NodeRec],
) -> Result<Settling, PlaceFault>
    requires due { HasNamesDue g.now stamp.now due.now }
    requires nodes { nodes.now ≡ nodes_of_files due.now.files }
    ensures settled { IfOk result (IsSettling g.now due.now) }
    ensures cause { IfErr result (λ fault. (fault ≡ place_fault.NoMemory) ⊎ ((fault ≡ place_fault.NoRoom LostFound) × LacksCluster g.now due.now)) }
{
    let entries = due.entries.as_slice();
    if !can_connect(nodes, entries, g.rootino) {
        return Err(PlaceFault::NoMemory);
    }
    match connect(alloc, nodes, entries, g.rootino) {
        Ok(decided) => settle_decided(alloc, g, due, stamp, nodes, decided),
        Err(NoMemory) => Err(PlaceFault::NoMemory),
    }
}

/// The same by the names that are decided for the files.
fn settle_decided(
    alloc: Global,
    g: &Geometry,
    due: &NamesDue,
    stamp: &Stamp,
    nodes: &[NodeRec],
    decided: DecidedNames,
) -> Result<Settling, PlaceFault>
    requires due { HasNamesDue g.now stamp.now due.now }
    requires decided { AreDecidedFor g.now due.now nodes.now decided }
    ensures settled { IfOk result (IsSettling g.now due.now) }
    ensures cause { IfErr result (λ fault. (fault ≡ place_fault.NoMemory) ⊎ ((fault ≡ place_fault.NoRoom LostFound) × LacksCluster g.now due.now)) }
{
    match find_lost(alloc, g, due, nodes, &decided) {
        Ok(lost) => settle_lost(alloc, g, due, stamp, nodes, decided, lost),
        Err(fault) => {
            drop(decided);
            Err(fault)
        }
    }
}

/// The same where lost+found stands there.
fn settle_lost(
    alloc: Global,
    g: &Geometry,
    due: &NamesDue,
    stamp: &Stamp,
    nodes: &[NodeRec],
    decided: DecidedNames,
    lost: Lost,
) -> Result<Settling, PlaceFault>
    requires due { HasNamesDue g.now stamp.now due.now }
    requires decided { AreDecidedFor g.now due.now nodes.now decided }
    requires lost { lost ≡ lost_due g.now due.now }
    requires found { LacksCluster g.now due.now → ⊥ }
    ensures settled { IfOk result (IsSettling g.now due.now) }
    ensures cause { IfErr result (λ fault. fault ≡ place_fault.NoMemory) }
{
    if !is_new_number(nodes, lost.new) {
        drop(decided);
        drop(lost);
        return Err(PlaceFault::NoMemory);
    }
    let entries = due.entries.as_slice();
    let dirs = due.dirs.as_slice();
    let orphans = decided.orphans.as_slice().len() as u64;
    match want_names(alloc, nodes, entries, dirs, g.rootino, lost.new, decided) {
        Ok(names) => with_built(alloc, due.files.as_slice(), lost, names, orphans),
        Err(NoMemory) => {
            drop(lost);
            Err(PlaceFault::NoMemory)
        }
    }
}

/// Whether a number is one that an inode can have and no file has.
fn is_new_number(nodes: &[NodeRec], number: u64) -> bool
    requires { AreFiles nodes.now }
    ensures low { IsTrue result → number < 2 ^ 32 }
    ensures free { IsTrue result → is_kept_node nodes.now number ≡ false }
{
    number < INODES_END && !is_kept(nodes, number)
}

/// What is settled, with the directories that are built of these names.
fn with_built(
    alloc: Global,
    files: &[FileRec],
    lost: Lost,
    names: WantedNames,
    orphans: u64,
) -> Result<Settling, PlaceFault>
    requires files { NumbersAscend 0 (numbers_of files.now) }
    requires ascend { NumbersAscend 0 names.rebuilt }
    requires can { CanBeBuilt names }
    ensures place { IfOk result (λ t. t.lost ≡ lost) }
    ensures wanted { IfOk result (λ t. t.names ≡ names) }
    ensures rooms { IfOk result (λ t. t.rooms ≡ fork_rooms names.rebuilt files.now) }
    ensures numbers { IfOk result (λ t. map (λ (b : BuiltDirectory). b.ino) t.built ≡ names.rebuilt) }
    ensures each { IfOk result (λ t. All (IsBuiltAsWanted names (fork_rooms names.rebuilt files.now)) t.built) }
    ensures without { IfOk result (λ t. t.orphans ≡ orphans) }
    ensures cause { IfErr result (λ fault. fault ≡ place_fault.NoMemory) }
{
    match built_of(alloc, files, &names) {
        Ok((rooms, built)) => Ok(Settling {
            lost,
            names,
            rooms: Records::from_vec(rooms),
            built,
            orphans,
        }),
        Err(NoMemory) => {
            drop(lost);
            drop(names);
            Err(PlaceFault::NoMemory)
        }
    }
}

/// How many bytes data forks may have, and the directories that are built of these names.
fn built_of(
    alloc: Global,
    files: &[FileRec],
    names: &WantedNames,
) -> Result<(Vec<ForkRoom>, Records<BuiltDirectory>), NoMemory>
    requires files { NumbersAscend 0 (numbers_of files.now) }
    requires ascend { NumbersAscend 0 names.now.rebuilt }
    requires can { CanBeBuilt names.now }
    ensures rooms { IfOk result (λ both. both.0.items ≡ fork_rooms names.now.rebuilt files.now) }
    ensures numbers { IfOk result (λ both. map (λ (b : BuiltDirectory). b.ino) both.1 ≡ names.now.rebuilt) }
    ensures each { IfOk result (λ both. All (IsBuiltAsWanted names.now (fork_rooms names.now.rebuilt files.now)) both.1) }
{
    let rooms = fork_rooms(alloc, names.rebuilt.as_slice(), files)?;
    let built = build_all(alloc, names, &rooms)?;
    Ok((rooms, built))
}
