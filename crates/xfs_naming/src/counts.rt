//! The ninth law: each file has as many links as names, a directory two and one for each directory in it, and a file of
//! the system's own is there, empty, with one.

ghost use Rattle.std.specs.Prelude.{◌≡◌, ◌==◌, ◌&&◌, true, false, length, map, count_by};
ghost use Rattle.xfs_dirdata.specs.declared.records.EntryRec.{EntryRec};
ghost use Rattle.xfs_volume.specs.Laws.{first_broken, law_at};
ghost use Rattle.xfs_naming.specs.Naming.{is_system, is_directory_at, is_empty_regular, links_at, file_at};
ghost use Rattle.xfs_naming.specs.Ordered.{IsOrdered};
ghost use Rattle.xfs_naming.specs.Private.Kinds.{links_due, empty_links};

use crate::kinds::{FileKind, kind_at};
use crate::lookups::{DIRECTORY, file_at, is_directory_at, is_system};
use crate::naming::{Names, Near};
use crate::places::names_of;
use crate::runs::records_by_number;
use xfs_dirdata::EntryRec;
use xfs_volume::{FileRec, Law, type_of};

/// The type of a regular file (chapter "On-disk Inode").
const REGULAR: u16 = 8;

/// How many of these entries name a directory.
fn count_directories(names: &Names, own: &[EntryRec]) -> usize
    requires { IsOrdered names.now }
    ensures { result ≡ count_by (λ (e : EntryRec). is_directory_at names.now.files.now e.ino) own.now }
{
    let mut near = 0;
    let mut count = 0;
    for entry in own {
        if is_directory_at(names, &mut near, entry.ino) {
            count += 1;
        }
    }
    count
}

/// The links that a file of a kind should have: for a directory two and one for each directory in it, for another file one
/// for each name.
fn links_due(names: &Names, near: &mut Near, kind: FileKind) -> u128
    requires { IsOrdered names.now }
    ensures { result ≡ links_due names.now.files.now names.now.entries.now kind }
{
    if kind.kind == DIRECTORY {
        2 + count_directories(names, records_by_number(names.entries, kind.ino)) as u128
    } else {
        names_of(names, &mut near.links, kind.ino) as u128
    }
}

/// Whether a file of the system's own is as it should be: regular, with no bytes, no data and no tree of extents.
fn is_empty_regular(file: &FileRec) -> bool
    ensures { result ≡ is_empty_regular file.now }
{
    type_of(file) == REGULAR
        && file.core.size == 0
        && file.extents.as_slice().is_empty()
        && file.rest.tree().is_empty()
}

/// What the ninth law says of a number of the system's own.
fn system_links(names: &Names, ino: u64) -> Law
    requires ordered { IsOrdered names.now }
    requires system { is_system names.now.root ino ≡ true }
    ensures { result ≡ links_at names.now.root names.now.files.now names.now.entries.now (file_at names.now.files.now ino) ino }
{
    match file_at(names, ino) {
        Some(file) => empty_links(file, ino),
        None => missing_law(ino),
    }
}

/// What the ninth law says of a file of the system's own.
fn empty_links(file: &FileRec, ino: u64) -> Law
    ensures { result ≡ empty_links file.now ino }
{
    if is_empty_regular(file) {
        return law_nine(ino, file.core.nlink as u128, 1);
    }
    law_nine(ino, 0, 1)
}

/// What the ninth law says of another number.
fn other_links(names: &Names, near: &mut Near, ino: u64) -> Law
    requires ordered { IsOrdered names.now }
    requires other { is_system names.now.root ino ≡ false }
    ensures { result ≡ links_at names.now.root names.now.files.now names.now.entries.now (file_at names.now.files.now ino) ino }
{
    match kind_at(names, &mut near.files, ino) {
        Some(kind) => law_nine(ino, kind.nlink as u128, links_due(names, near, kind)),
        None => missing_law(ino),
    }
}

/// The ninth law at a number, with the links that are held and those that are due.
fn law_nine(place: u64, held: u128, due: u128) -> Law
    ensures { result ≡ law_at 9 place held due }
{
    Law {
        law: 9,
        place,
        held,
        due,
    }
}

/// The ninth law at a number of which there is no file.
fn missing_law(ino: u64) -> Law
    ensures { result ≡ law_at 9 ino 0 1 }
{
    law_nine(ino, 0, 1)
}

/// What the ninth law says of a number.
fn links_at(names: &Names, near: &mut Near, ino: u64) -> Law
    requires { IsOrdered names.now }
    ensures { result ≡ links_at names.now.root names.now.files.now names.now.entries.now (file_at names.now.files.now ino) ino }
{
    if is_system(names.root, ino) {
        return system_links(names, ino);
    }
    other_links(names, near, ino)
}

/// The first of these numbers that breaks the ninth law.
pub fn broken_links(names: &Names, numbers: &[u64]) -> Option<Law>
    requires { IsOrdered names.now }
    ensures { result ≡ first_broken (map (λ ino. links_at names.now.root names.now.files.now names.now.entries.now (file_at names.now.files.now ino) ino) numbers.now) }
{
    let mut near = Near { files: 0, links: 0 };
    for ino in numbers {
        let law = links_at(names, &mut near, *ino);
        if law.held != law.due {
            return Some(law);
        }
    }
    None
}
