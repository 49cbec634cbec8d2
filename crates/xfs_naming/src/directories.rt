//! The seventh law: directories are whole, and their entries name files in use by their types.

ghost use Rattle.std.specs.Prelude.{◌≡◌, true, IfOk};
ghost use Rattle.std.specs.List.{list_all};
ghost use Rattle.std.specs.Option.{option_map};
ghost use Rattle.xfs_volume.specs.Laws.{first_broken};
ghost use Rattle.xfs_naming.specs.Naming.{has_target, has_type, file_at, first_failing, directory_tests, directory_at, directory_laws};
ghost use Rattle.xfs_naming.specs.Ordered.{IsOrdered};
ghost use Rattle.xfs_naming.specs.Private.Kinds.{kind_of};

use crate::kinds::{FileKind, kind_at};
use crate::lookups::{entry_type, is_system};
use crate::naming::Names;
use crate::runs::records_by_number;
use crate::texts::has_right_names;
use std::alloc::Global;
use xfs_dirdata::EntryRec;
use xfs_disk::NoMemory;
use xfs_volume::{DirRec, Law};

/// Whether an entry names a file in use that is not one of the system's, by the kind of the file that it names.
fn has_target(names: &Names, kind: Option<FileKind>, entry: &EntryRec) -> bool
    requires ordered { IsOrdered names.now }
    requires known { kind ≡ option_map kind_of (file_at names.now.files.now entry.now.ino) }
    ensures { result ≡ has_target names.now.root names.now.files.now entry.now }
{
    match kind {
        Some(_) => !is_system(names.root, entry.ino),
        None => false,
    }
}

/// Whether an entry states the type of the file that it names, or none, by the kind of that file.
fn has_type(names: &Names, kind: Option<FileKind>, entry: &EntryRec) -> bool
    requires ordered { IsOrdered names.now }
    requires known { kind ≡ option_map kind_of (file_at names.now.files.now entry.now.ino) }
    ensures { result ≡ has_type names.now.files.now entry.now }
{
    if entry.ftype == 0 {
        return true;
    }
    match kind {
        Some(kind) => entry_type(kind.kind) == entry.ftype,
        None => false,
    }
}

/// Whether each entry names a file in use that is not one of the system's; where each does, `typed` tells whether each
/// states the type of that file, or none.
fn have_targets(names: &Names, own: &[EntryRec], typed: &mut bool) -> bool
    requires { IsOrdered names.now }
    ensures targets { result ≡ list_all (has_target names.now.root names.now.files.now) own.now }
    ensures types { result ≡ true → typed.new ≡ list_all (has_type names.now.files.now) own.now }
{
    let mut near = 0;
    let mut right = true;
    for entry in own {
        let kind = kind_at(names, &mut near, entry.ino);
        if !has_target(names, kind, entry) {
            return false;
        }
        right = right && has_type(names, kind, entry);
    }
    *typed = right;
    true
}

/// The number of the first test that a directory with these entries fails, or 0.
fn first_failing(
    alloc: Global,
    names: &Names,
    own: &[EntryRec],
    dir: &DirRec,
) -> Result<u8, NoMemory>
    requires { IsOrdered names.now }
    ensures { IfOk result (λ number. number ≡ first_failing (directory_tests names.now.root names.now.files.now own.now dir.now)) }
{
    if !dir.whole {
        return Ok(1);
    }
    if !has_right_names(alloc, own)? {
        return Ok(2);
    }
    let mut typed = true;
    if !have_targets(names, own, &mut typed) {
        return Ok(3);
    }
    if !typed {
        return Ok(4);
    }
    Ok(0)
}

/// What the seventh law says of a directory.
fn directory_at(alloc: Global, names: &Names, dir: &DirRec) -> Result<Law, NoMemory>
    requires { IsOrdered names.now }
    ensures { IfOk result (λ law. law ≡ directory_at names.now.root names.now.files.now names.now.entries.now dir.now) }
{
    match first_failing(alloc, names, records_by_number(names.entries, dir.ino), dir) {
        Ok(number) => Ok(Law {
            law: 7,
            place: dir.ino,
            held: number as u128,
            due: 0,
        }),
        Err(error) => Err(error),
    }
}

/// The first directory that breaks the seventh law.
#[tactic(auto, unfolding(crate::specs::Naming::directory_laws))]
pub fn broken_directory(alloc: Global, names: &Names) -> Result<Option<Law>, NoMemory>
    requires { IsOrdered names.now }
    ensures { IfOk result (λ law. law ≡ first_broken (directory_laws names.now.root names.now.files.now names.now.entries.now names.now.dirs.now)) }
{
    for dir in names.dirs {
        let law = directory_at(alloc, names, dir)?;
        if law.held != law.due {
            return Ok(Some(law));
        }
    }
    Ok(None)
}
