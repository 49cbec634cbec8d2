//! The places of log sequence numbers of files.

ghost use Rattle.std.specs.Prelude.{◌≡◌, ◌++◌, OnOk};
ghost use Rattle.std.specs.List.{All, flat_map};
ghost use Rattle.xfs_geom.specs.Volumes.{volume_of};
ghost use Rattle.xfs_image.specs.Lsns.{data_places, file_places};
ghost use Rattle.xfs_journal.specs.Placed.{IsInBlock, listed};

use crate::extents::{Owner, push_fork};
use crate::places::{LsnPosition, push_each};
use xfs_disk::NoMemory;
use xfs_geom::Geometry;
use xfs_volume::FileRec;

/// The types of a directory and of a symbolic link, in the upper four bits of a mode (chapter "On-disk Inode").
const DIRECTORY: u16 = 4;

const LINK: u16 = 10;

/// Where a block of a tree of extents has its number, in bytes.
const TREE_LSN: u16 = 32;

/// Adds the places of files.
pub fn push_file_places(
    g: &Geometry,
    files: &[FileRec],
    places: &mut Vec<LsnPosition>,
) -> Result<(), NoMemory>
    requires inside { All IsInBlock places.old.items }
    ensures listed { OnOk result (listed places.new.items ≡ listed places.old.items ++ flat_map (file_places (volume_of g.now)) files.now) }
    ensures inside { All IsInBlock places.new.items }
{
    for file in files {
        push_file(g, file, places)?;
    }
    Ok(())
}

/// Adds the places of a file: of its data, of the tree of its extents, of its attributes.
fn push_file(g: &Geometry, file: &FileRec, places: &mut Vec<LsnPosition>) -> Result<(), NoMemory>
    requires inside { All IsInBlock places.old.items }
    ensures listed { OnOk result (listed places.new.items ≡ listed places.old.items ++ file_places (volume_of g.now) file.now) }
    ensures inside { All IsInBlock places.new.items }
{
    push_data(g, file, places)?;
    push_each(file.rest.tree(), TREE_LSN, places)?;
    push_fork(g, Owner::Attributes, file.rest.attr_extents(), places)?;
    Ok(())
}

/// Adds the places of a file's data: those of a directory or a symbolic link alone are objects with such a number.
fn push_data(g: &Geometry, file: &FileRec, places: &mut Vec<LsnPosition>) -> Result<(), NoMemory>
    requires inside { All IsInBlock places.old.items }
    ensures listed { OnOk result (listed places.new.items ≡ listed places.old.items ++ data_places (volume_of g.now) file.now) }
    ensures inside { All IsInBlock places.new.items }
{
    match file.core.mode >> 12 {
        DIRECTORY => push_fork(g, Owner::Directory, file.extents.as_slice(), places),
        LINK => push_fork(g, Owner::Link, file.extents.as_slice(), places),
        _ => Ok(()),
    }
}
