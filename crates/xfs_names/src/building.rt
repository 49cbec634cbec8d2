//! The directories that are built anew.

ghost use Rattle.std.specs.Prelude.{◌≡◌, ◌<◌, ◌≤◌, ◌^◌, map, length, IfOk, IsTrue};
ghost use Rattle.std.specs.List.{All};
ghost use Rattle.std.specs.List.Sorted.{IsNonDecreasingBy};
ghost use Rattle.xfs_dirdata.specs.declared.records.EntryRec.{EntryRec};
ghost use Rattle.xfs_dirdata.specs.Written.{IsWritableEntry};
ghost use Rattle.xfs_dirindex.specs.Data.{have_no_dots};
ghost use Rattle.xfs_naming.specs.Naming.{entries_in};
ghost use Rattle.xfs_dirbuild.specs.Forms.{form_of};
ghost use Rattle.xfs_names.specs.declared.building.BuiltDirectory.{BuiltDirectory};
ghost use Rattle.xfs_names.specs.declared.building.ForkRoom.{ForkRoom};
ghost use Rattle.xfs_names.specs.Pairs.{PairsAscend, parent_or_itself};
ghost use Rattle.xfs_names.specs.Built.{fork_room, CanBeBuilt, IsImageIn, IsBuiltAsWanted};

use crate::parenting::parent_among;
use crate::records::WantedNames;
use std::alloc::Global;
use xfs_dirbuild::{DirImage, build};
use xfs_dirdata::EntryRec;
use xfs_disk::NoMemory;
use xfs_naming::{Numbered, records_by_number};
use xfs_volume::Records;

/// How many bytes the data fork of a directory may have.
#[derive(Clone, Copy)]
pub struct ForkRoom {
    /// The inode number of the directory.
    pub ino: u64,
    /// How many bytes.
    pub bytes: u16,
}

/// The room of a fork goes by its directory.
impl Numbered for ForkRoom {
    ghost key = { λ r. r.ino };

    fn number(&self) -> u64 {
        self.ino
    }
}

/// A directory that was built anew.
#[derive(Drop)]
pub struct BuiltDirectory {
    /// The inode number of the directory.
    pub ino: u64,
    /// Its short form, or its blocks without places and seals.
    pub image: DirImage,
}

/// How many bytes a data fork may have of which nothing is told: all that stand behind the core of a slot of 512 bytes.
const WHOLE_FORK: usize = 336;

/// Builds each directory that is to be built anew, in the order in which they are told, each with the entries and the parent
/// that are wanted, in the first form that fits its data fork. `rooms` tells how many bytes that fork may have, by number of the
/// directory; where it tells nothing of one, that is 336. Nothing is read.
pub fn build_all(
    alloc: Global,
    wanted: &WantedNames,
    rooms: &[ForkRoom],
) -> Result<Records<BuiltDirectory>, NoMemory>
    requires wanted { CanBeBuilt wanted.now }
    requires rooms { IsNonDecreasingBy (λ (r : ForkRoom). r.ino) rooms.now }
    ensures each { IfOk result (λ built. map (λ (b : BuiltDirectory). b.ino) built ≡ wanted.now.rebuilt) }
    ensures built { IfOk result (λ built. All (IsBuiltAsWanted wanted.now rooms.now) built) }
{
    let rebuilt = wanted.rebuilt.as_slice();
    let mut built = Vec::new(alloc);
    for dir in rebuilt {
        built.push(build_one(alloc, wanted, rooms, *dir)?)?;
    }
    Ok(Records::from_vec(built))
}

/// Builds a directory with the entries and the parent that are wanted.
fn build_one(
    alloc: Global,
    wanted: &WantedNames,
    rooms: &[ForkRoom],
    dir: u64,
) -> Result<BuiltDirectory, NoMemory>
    requires wanted { CanBeBuilt wanted.now }
    requires rooms { IsNonDecreasingBy (λ (r : ForkRoom). r.ino) rooms.now }
    requires dir { dir < 2 ^ 32 }
    ensures number { IfOk result (λ built. built.ino ≡ dir) }
    ensures built { IfOk result (λ built. IsBuiltAsWanted wanted.now rooms.now built) }
{
    let entries = records_by_number(wanted.entries.as_slice(), dir);
    let parent = parent_or_itself(wanted.parents.as_slice(), dir);
    let image = build_image(alloc, entries, dir, parent, fork_room(rooms, dir))?;
    Ok(BuiltDirectory { ino: dir, image })
}

/// The image of a directory with these entries.
fn build_image(
    alloc: Global,
    entries: &[EntryRec],
    dir: u64,
    parent: u64,
    fork: usize,
) -> Result<DirImage, NoMemory>
    requires writable { All IsWritableEntry entries.now }
    requires names { IsTrue (have_no_dots entries.now) }
    requires few { length entries.now ≤ 2 ^ 24 }
    requires dir { dir < 2 ^ 32 }
    requires parent { parent < 2 ^ 32 }
    ensures { IfOk result (IsImageIn (form_of entries.now fork) entries.now dir parent) }
{
    build(alloc, entries, dir, parent, fork)
}

/// The parent that is told of a directory; its own number where none is told.
fn parent_or_itself(parents: &[(u64, u64)], dir: u64) -> u64
    requires { PairsAscend 0 parents.now }
    ensures { result ≡ parent_or_itself parents.now dir }
{
    match parent_among(parents, dir) {
        Some(parent) => parent,
        None => dir,
    }
}

/// How many bytes the data fork of a directory may have.
fn fork_room(rooms: &[ForkRoom], dir: u64) -> usize
    requires { IsNonDecreasingBy (λ (r : ForkRoom). r.ino) rooms.now }
    ensures { result ≡ fork_room rooms.now dir }
{
    match records_by_number(rooms, dir).first() {
        Some(room) => room.bytes as usize,
        None => WHOLE_FORK,
    }
}
