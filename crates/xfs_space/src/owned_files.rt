//! What files own (chapter "Data Extents").

ghost use Rattle.std.specs.Prelude.{◌≡◌, ℕ, ◌++◌, ◌≤◌, ◌<◌, ◌^◌, List, map, OnOk};
ghost use Rattle.std.specs.List.{All, flat_map};
ghost use Rattle.xfs_geom.specs.Groups.{block_of_address, group_of_address};
ghost use Rattle.xfs_geom.specs.Volumes.{volume_of};
ghost use Rattle.xfs_volume.specs.declared.files.FileRec.{FileRec};
ghost use Rattle.xfs_space.specs.Owners.{attribute_flag, extent_run, extent_word, file_runs};
ghost use Rattle.xfs_space.specs.Parts.{HasLawfulForks};
ghost use Rattle.xfs_space.specs.Private.Places.{IsPlacedExtent};

use crate::owners::{ATTRIBUTE, TREE_BLOCK, UNWRITTEN, push_blocks, push_run};
use xfs_disk::NoMemory;
use xfs_geom::{Geometry, Run};
use xfs_volume::FileRec;
use xfs_word::Extent;

/// Adds what the files own.
pub fn push_files(runs: &mut Vec<Run>, g: &Geometry, files: &[FileRec]) -> Result<(), NoMemory>
    requires { All (HasLawfulForks (volume_of g.now)) files.now }
    ensures put { OnOk result (runs.new.items ≡ runs.old.items ++ flat_map (file_runs (volume_of g.now)) files.now) }
    ensures small { OnOk result (All (λ (f : FileRec). f.ino < 2 ^ 64) files.now) }
{
    for file in files {
        push_file(runs, g, file)?;
    }
    Ok(())
}

/// Adds what a file owns: its data, its attributes, the blocks of its tree of extents.
fn push_file(runs: &mut Vec<Run>, g: &Geometry, file: &FileRec) -> Result<(), NoMemory>
    requires { HasLawfulForks (volume_of g.now) file.now }
    ensures put { OnOk result (runs.new.items ≡ runs.old.items ++ file_runs (volume_of g.now) file.now) }
    ensures small { OnOk result (file.now.ino < 2 ^ 64) }
{
    push_extents(runs, g, file.ino, 0, file.extents.as_slice())?;
    push_extents(runs, g, file.ino, ATTRIBUTE, file.rest.attr_extents())?;
    push_blocks(runs, file.ino, TREE_BLOCK, file.rest.tree())
}

/// Adds the blocks of the extents of a fork, with the fork's flag.
fn push_extents(
    runs: &mut Vec<Run>,
    g: &Geometry,
    ino: u64,
    flag: u64,
    extents: &[Extent],
) -> Result<(), NoMemory>
    requires flag { flag ≤ 2 ^ 63 }
    requires placed { All (IsPlacedExtent (volume_of g.now)) extents.now }
    ensures put { OnOk result (runs.new.items ≡ runs.old.items ++ map (extent_run (volume_of g.now) ino flag) extents.now) }
    ensures small { ino < 2 ^ 64 }
{
    for extent in extents {
        let block = block_of(g, extent.start);
        push_run(runs, block, extent.count, ino, word_of(flag, extent))?;
    }
    Ok(())
}

/// The number of the block at an address.
fn block_of(g: &Geometry, address: u64) -> u64
    requires { group_of_address g.now.agblklog address < g.now.agcount }
    ensures { result ≡ block_of_address g.now.agblocks g.now.agblklog address }
{
    let size = 1 << g.agblklog;
    address / size * g.agblocks as u64 + address % size
}

/// The offset word of an extent's first block, with a flag, which says what fork the extent is of.
pub fn word_of(flag: u64, extent: &Extent) -> u64
    requires flag { flag ≤ 2 ^ 63 }
    requires offset { extent.now.offset < 2 ^ 54 }
    ensures { result ≡ extent_word flag extent.now }
{
    if extent.unwritten {
        flag + UNWRITTEN + extent.offset
    } else {
        flag + extent.offset
    }
}
