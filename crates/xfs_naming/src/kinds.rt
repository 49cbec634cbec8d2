//! What the laws of names ask of files again and again, kept close together.

ghost use Rattle.std.specs.Prelude.{◌≡◌, map, Some, IfOk};
ghost use Rattle.std.specs.Option.{option_map, IfSome};
ghost use Rattle.xfs_naming.specs.Naming.{file_at};
ghost use Rattle.xfs_naming.specs.Ordered.{IsOrdered};
ghost use Rattle.xfs_naming.specs.Private.Kinds.{kind_of};

use crate::naming::Names;
use crate::runs::{Numbered, records_near};
use std::alloc::{AllocError, Global};
use xfs_volume::{FileRec, type_of};

/// What is asked of a file by its number: 16 bytes, where its record has some 300.
#[derive(Clone, Copy)]
pub struct FileKind {
    /// The number of its inode.
    pub ino: u64,
    /// How many links it states.
    pub nlink: u32,
    /// Its type, the upper four bits of its mode.
    pub kind: u16,
}

impl Numbered for FileKind {
    ghost key = { λ k. k.ino };

    fn number(&self) -> u64 {
        self.ino
    }
}

/// What is asked of a file.
fn kind_of(file: &FileRec) -> FileKind
    ensures { result ≡ kind_of file.now }
{
    FileKind {
        ino: file.ino,
        nlink: file.core.nlink,
        kind: type_of(file),
    }
}

/// What is asked of each of these files.
pub fn kinds_of(alloc: Global, files: &[FileRec]) -> Result<Vec<FileKind>, AllocError>
    ensures { IfOk result (λ kinds. kinds.items ≡ map kind_of files.now) }
{
    let mut kinds = Vec::with_capacity(alloc, files.len())?;
    for file in files {
        kinds.push(kind_of(file))?;
    }
    Ok(kinds)
}

/// The kind at a place among the files, where it is that of the file with this number.
fn kind_here(names: &Names, place: usize, ino: u64) -> Option<FileKind>
    requires { IsOrdered names.now }
    ensures { IfSome result (λ kind. Some kind ≡ option_map kind_of (file_at names.now.files.now ino)) }
{
    if place >= names.kinds.len() {
        return None;
    }
    let kind = names.kinds[place];
    if kind.ino != ino {
        return None;
    }
    Some(kind)
}

/// The kind of the file with a number, where one is in use. `near` is a place among the files at which it may stand, and
/// then the one behind it; so in what follows.
pub fn kind_at(names: &Names, near: &mut usize, ino: u64) -> Option<FileKind>
    requires { IsOrdered names.now }
    ensures { result ≡ option_map kind_of (file_at names.now.files.now ino) }
{
    if let Some(kind) = kind_here(names, *near, ino) {
        *near = near.wrapping_add(1);
        return Some(kind);
    }
    first_kind(names, near, ino)
}

/// The same, by a search among all.
fn first_kind(names: &Names, near: &mut usize, ino: u64) -> Option<FileKind>
    requires { IsOrdered names.now }
    ensures { result ≡ option_map kind_of (file_at names.now.files.now ino) }
{
    records_near(names.kinds, near, ino).first().copied()
}
