//! The blocks of directories that are built anew, which they give up.

ghost use Rattle.std.specs.Prelude.{◌≡◌, ◌++◌, IfOk, OnOk};
ghost use Rattle.std.specs.List.{All, flat_map};
ghost use Rattle.xfs_geom.specs.Groups.{block_of_address};
ghost use Rattle.xfs_geom.specs.Volumes.{volume_of};
ghost use Rattle.xfs_naming.specs.Naming.{NumbersAscend};
ghost use Rattle.xfs_changes.specs.Replaced.{blocks_of_data, blocks_replaced, numbers_of_extent, replaced_blocks};

use xfs_disk::NoMemory;
use xfs_geom::Geometry;
use xfs_salvage::is_among;
use xfs_volume::FileRec;
use xfs_word::Extent;

/// Adds the blocks of the directories with these numbers to others. `NoMemory` where memory is wanting, or where an extent ends
/// past the volume.
#[tactic(auto, unfolding(crate::specs::Replaced::replaced_blocks))]
pub fn push_replaced(
    g: &Geometry,
    rebuilt: &[u64],
    files: &[FileRec],
    blocks: &mut Vec<u64>,
) -> Result<(), NoMemory>
    requires rebuilt { NumbersAscend 0 rebuilt.now }
    ensures { OnOk result (blocks.new.items ≡ blocks.old.items ++ replaced_blocks (volume_of g.now) rebuilt.now files.now) }
{
    for file in files {
        push_of_file(g, rebuilt, file, blocks)?;
    }
    Ok(())
}

/// Adds those of a file, where it is one of these.
fn push_of_file(
    g: &Geometry,
    rebuilt: &[u64],
    file: &FileRec,
    blocks: &mut Vec<u64>,
) -> Result<(), NoMemory>
    requires rebuilt { NumbersAscend 0 rebuilt.now }
    ensures { OnOk result (blocks.new.items ≡ blocks.old.items ++ blocks_replaced (volume_of g.now) rebuilt.now file.now) }
{
    if !is_among(rebuilt, file.ino) {
        return Ok(());
    }
    push_extents(g, file.extents.as_slice(), blocks)?;
    blocks.extend_from_slice(file.rest.tree())?;
    Ok(())
}

/// Adds the blocks of extents.
fn push_extents(g: &Geometry, extents: &[Extent], blocks: &mut Vec<u64>) -> Result<(), NoMemory>
    ensures { OnOk result (blocks.new.items ≡ blocks.old.items ++ flat_map (numbers_of_extent (volume_of g.now)) extents.now) }
{
    for extent in extents {
        push_extent(g, extent, blocks)?;
    }
    Ok(())
}

/// Adds the blocks of an extent.
fn push_extent(g: &Geometry, extent: &Extent, blocks: &mut Vec<u64>) -> Result<(), NoMemory>
    ensures { OnOk result (blocks.new.items ≡ blocks.old.items ++ numbers_of_extent (volume_of g.now) extent.now) }
{
    let start = block_of(g, extent.start);
    if start >= g.dblocks || g.dblocks - start < extent.count {
        return Err(NoMemory);
    }
    for i in 0..extent.count {
        blocks.push(start + i)?;
    }
    Ok(())
}

/// The number of the block at an address.
fn block_of(g: &Geometry, address: u64) -> u64
    ensures { result ≡ block_of_address g.now.agblocks g.now.agblklog address }
{
    let size = 1u64 << g.agblklog;
    address / size * g.agblocks as u64 + address % size
}
